// Cases of the stored list, its sheet and the tally, a line each: lengths round a record and the longest list, offsets up to
// the largest usize, records in and out of range, numbers that stand twice or nowhere, empty places, and a full count of a tally.
// What a line holds stands above the function that prints it.
#![tactic(auto)]

use list::Star;
use list_tally::Tally;
use quantity::Refusal;
use std::io::Stdout;

fn next(to: Stdout, n: u64) {
    let _ = to.write_all(b" ");
    let _ = to.print(n);
}

fn next_signed(to: Stdout, z: i32) {
    if signed::negative(z) {
        let _ = to.write_all(b" -");
    } else {
        let _ = to.write_all(b" ");
    }
    let _ = to.print(signed::size(z) as u64);
}

fn refused(to: Stdout, refusal: Refusal) {
    let _ = to.write_all(b" refused");
    next(to, refusal.number() as u64);
}

fn end(to: Stdout) {
    let _ = to.write_all(b"\n");
}

// A length, how many places it has, and 1 where it is that of a list.
fn length_case(to: Stdout, buffer: &[u8], n: usize) {
    if n <= buffer.len() {
        let bytes = &buffer[..n];
        let _ = to.print(n as u64);
        next(to, list::count(bytes) as u64);
        next(to, list::is_list(bytes) as u64);
        end(to);
    }
}

// An offset, the first star that is kept from there on, and the offset after it; the offset alone where none is left.
fn offset_case(to: Stdout, bytes: &[u8], offset: usize) {
    let _ = to.print(offset as u64);
    match list_reader::stored_at(bytes, offset) {
        Ok(Some((star, after))) => {
            next(to, star.number as u64);
            next(to, star.asc as u64);
            next_signed(to, star.dec);
            next_signed(to, star.asc_rate);
            next_signed(to, star.dec_rate);
            next(to, after as u64);
        }
        Ok(None) => {}
        Err(refusal) => refused(to, refusal),
    }
    end(to);
}

// A number, the index of its first star, and that star's other fields.
fn find_case(to: Stdout, bytes: &[u8], sought: u32) {
    let _ = to.print(sought as u64);
    match list::find(bytes, sought) {
        Ok((i, star)) => {
            next(to, i as u64);
            next(to, star.asc as u64);
            next_signed(to, star.dec);
            next_signed(to, star.asc_rate);
            next_signed(to, star.dec_rate);
        }
        Err(refusal) => refused(to, refusal),
    }
    end(to);
}

// The sheet itself, with yearly changes or without.
fn sheet_case(to: Stdout, bytes: &[u8], rates: bool, out: &mut [u8]) {
    match text_sheet::render(bytes, rates, out) {
        Ok(k) => {
            let _ = to.write_all(&out[..k]);
        }
        Err(refusal) => refused(to, refusal),
    }
}

// The length of the slice, and that of the sheet in it.
fn size_case(to: Stdout, bytes: &[u8], out: &mut [u8]) {
    let _ = to.print(out.len() as u64);
    match text_sheet::render(bytes, true, out) {
        Ok(k) => next(to, k as u64),
        Err(refusal) => refused(to, refusal),
    }
    end(to);
}

fn lengths(to: Stdout, buffer: &[u8]) {
    length_case(to, buffer, 0);
    length_case(to, buffer, 1);
    length_case(to, buffer, 12);
    length_case(to, buffer, 19);
    length_case(to, buffer, 20);
    length_case(to, buffer, 21);
    length_case(to, buffer, 40);
    length_case(to, buffer, 59980);
    length_case(to, buffer, 59999);
    length_case(to, buffer, 60000);
    length_case(to, buffer, 60001);
    length_case(to, buffer, 60020);
}

fn offsets(to: Stdout, bytes: &[u8]) {
    offset_case(to, bytes, 0);
    offset_case(to, bytes, 1);
    offset_case(to, bytes, 12);
    offset_case(to, bytes, 20);
    offset_case(to, bytes, 120);
    offset_case(to, bytes, 220);
    offset_case(to, bytes, 240);
    offset_case(to, bytes, 241);
    offset_case(to, bytes, 260);
    offset_case(to, bytes, 18446744073709551600);
    offset_case(to, bytes, 18446744073709551615);
}

fn finds(to: Stdout, bytes: &[u8]) {
    find_case(to, bytes, 0);
    find_case(to, bytes, 1);
    find_case(to, bytes, 2);
    find_case(to, bytes, 3);
    find_case(to, bytes, 4);
    find_case(to, bytes, 5);
    find_case(to, bytes, 6);
    find_case(to, bytes, 7);
    find_case(to, bytes, 8);
    find_case(to, bytes, 4294967295);
}

// A star's record from the offset on.
fn put(
    bytes: &mut [u8],
    at: usize,
    number: u32,
    asc: u32,
    dec: i32,
    asc_rate: i32,
    dec_rate: i32,
) -> usize {
    let star = Star {
        number,
        asc,
        dec,
        asc_rate,
        dec_rate,
    };
    list::write_star(bytes, at, star)
}

// Twelve records: the ends of each range and the first counts past them, where number 1 stands twice, and three empty places. The first
// and the seventh are left as zeros, the last has another star's fields.
fn records(bytes: &mut [u8]) {
    let a = put(bytes, 20, 1, 1296000000, 0, 0, 0);
    let b = put(bytes, a, 2, 1295999999, 324000000, 20000, -20000);
    let c = put(bytes, b, 3, 0, -324000000, -20000, 20000);
    let d = put(bytes, c, 4, 0, 324000001, 0, 0);
    put(bytes, d, 5, 0, -324000001, 0, 0);
    records_after(bytes);
}

fn records_after(bytes: &mut [u8]) {
    let a = put(bytes, 140, 1, 0, 0, 0, 0);
    let b = put(bytes, a, 6, 0, 0, 20001, 0);
    let c = put(bytes, b, 7, 0, 0, 0, -2147483648);
    let d = put(bytes, c, 4294967295, 4294967295, -2147483648, 0, 0);
    put(bytes, d, 0, 3600000, -1, -1, 1);
}

// A status, the refusal, and the counts of 0 and of 10 after it.
fn raise_case(to: Stdout, tally: Tally, status: u8) -> Tally {
    let _ = to.print(status as u64);
    let raised = tally.raise(status);
    next(to, quantity::status_of(raised.check) as u64);
    let now = raised.tally;
    next(to, now.counts[0] as u64);
    next(to, now.counts[10] as u64);
    end(to);
    now
}

fn tallies(to: Stdout) {
    let a = raise_case(to, Tally::new(), 0);
    let b = raise_case(to, a, 10);
    let c = raise_case(to, b, 20);
    raise_case(to, c, 255);
    let mut counts = [0; 20];
    counts[10] = 60000;
    let d = raise_case(to, Tally { counts }, 10);
    let e = raise_case(to, d, 19);
    raise_case(to, e, 0);
}

fn sheets(to: Stdout, bytes: &[u8], out: &mut [u8]) {
    sheet_case(to, bytes, false, out);
    sheet_case(to, bytes, true, out);
    sheet_case(to, b"", false, out);
    sheet_case(to, b"a damaged star list!", false, out);
    sheet_case(to, b"damaged list", false, out);
}

// So of the first n bytes, and in the first n of the slice.
fn prefix_case(to: Stdout, buffer: &[u8], n: usize, out: &mut [u8]) {
    if n <= buffer.len() {
        let bytes = &buffer[..n];
        size_case(to, bytes, out);
    }
}

fn room_case(to: Stdout, bytes: &[u8], out: &mut [u8], n: usize) {
    if n <= out.len() {
        size_case(to, bytes, &mut out[..n]);
    }
}

// The arrays are lent once: what each call needs to know of their lengths would be proved again.
fn cases(to: Stdout, bytes: &[u8], buffer: &[u8], out: &mut [u8]) {
    lengths(to, buffer);
    offsets(to, bytes);
    offset_case(to, b"not a list!", 0);
    finds(to, bytes);
    find_case(to, b"not a list!", 1);
    find_case(to, b"", 0);
    sheets(to, bytes, out);
    prefix_case(to, buffer, 60000, out);
    prefix_case(to, buffer, 60020, out);
    room_case(to, bytes, out, 192059);
}

fn main(rt: HostRuntime) {
    let to = rt.stdout();
    let mut bytes = [0u8; 240];
    records(&mut bytes);
    let buffer = [1u8; 60020];
    let mut out = [0u8; text_sheet::ROOM];
    cases(to, &bytes, &buffer, &mut out);
    tallies(to);
}
