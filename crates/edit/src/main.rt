// Edits the star list on standard input, and prints it. Arguments: `strike` and numbers of stars; or `add`, how many empty places are laid
// behind the list first, and a star: its number, right ascension and declination, and both yearly changes; or `gather`, and `--cut` where
// the empty places are left off. Where a number cannot be read, or anything is refused, nothing is printed.
#![tactic(auto)]

ghost use Rattle.std.specs.Prelude.{◌≡◌, cond, ◌*◌, ◌≤◌, length};
ghost use Rattle.list.specs.rules.Record.{width};
ghost use Rattle.list.specs.rules.Stars.{stars};
ghost use Rattle.list.specs.rules.Find.{index_of};
ghost use Rattle.list_edit.specs.rules.Edit.{add_rule, with_room, Edit};

use list::Star;
use quantity::Refusal;
use std::rt::Env;

// ---- what is said

// That argument i is no number.
fn complain(err: &impl Print, i: usize) {
    arguments::say(err, b"argument ");
    arguments::say_number(err, i as u64);
    arguments::say(err, b": no whole number of 32 bits\n");
}

// The line of a refusal: of which star, where the call has several.
fn refuse(err: &impl Print, refusal: Refusal, several: bool, number: u32) {
    if !several {
        arguments::refuse(err, refusal.number());
        return;
    }
    arguments::say(err, b"refused ");
    arguments::say_number(err, refusal.number() as u64);
    arguments::say(err, b": number ");
    arguments::say_number(err, number as u64);
    arguments::say(err, b"\n");
}

// ---- strike

// The star struck whose number argument i says, and whether it was.
fn strike_one(rt: &impl Env, err: &impl Print, bytes: &mut [u8], i: usize, several: bool) -> bool {
    let Some(number) = arguments::unsigned_of(rt, i) else {
        complain(err, i);
        return false;
    };
    match list_edit::strike(bytes, number) {
        Ok(()) => true,
        Err(refusal) => {
            refuse(err, refusal, several, number);
            false
        }
    }
}

// The stars struck whose numbers the arguments from the second on say, and whether all were.
fn strike_all(rt: &impl Env, err: &impl Print, bytes: &mut [u8]) -> bool {
    let n = arguments::count(rt);
    let several = n > 3;
    for i in 2..n {
        if !strike_one(rt, err, bytes, i, several) {
            return false;
        }
    }
    true
}

// The list without the stars.
fn strike(rt: &(impl Env + Print), err: &impl Print, bytes: &mut [u8]) {
    if !list::is_list(bytes) {
        arguments::refuse(err, Refusal::List.number());
        return;
    }
    if strike_all(rt, err, bytes) {
        arguments::write(rt, err, bytes);
    }
}

// ---- add

// The number that argument i says, or i where it says none.
fn unsigned_at(rt: &impl Env, i: usize) -> Result<u32, usize> {
    arguments::unsigned_of(rt, i).ok_or(i)
}

// The number with a sign that argument i says, or i where it says none.
fn signed_at(rt: &impl Env, i: usize) -> Result<i32, usize> {
    arguments::signed_of(rt, i).ok_or(i)
}

// The star that the arguments from the third on say, or the first of them that is no number.
fn star_of(rt: &impl Env) -> Result<Star, usize> {
    Ok(Star {
        number: unsigned_at(rt, 3)?,
        asc: unsigned_at(rt, 4)?,
        dec: signed_at(rt, 5)?,
        asc_rate: signed_at(rt, 6)?,
        dec_rate: signed_at(rt, 7)?,
    })
}

// The star added to the list of the first n bytes, with empty places behind it up to the end.
fn add_with_room(bytes: &mut [u8], n: usize, star: Star) -> Result<(), Refusal>
    ensures { n ≤ length bytes.old → Edit (add_rule (with_room bytes.old n) star)
        (with_room bytes.old n) bytes.new result }
{
    list_edit::put_zeros(bytes, n);
    list_edit::add(bytes, star)
}

// The list of the first n bytes, and room behind it to the end, with the star.
fn add_star(rt: &impl Print, err: &impl Print, bytes: &mut [u8], n: usize, star: Star) {
    match add_with_room(bytes, n, star) {
        Ok(()) => {
            arguments::write(rt, err, bytes);
        }
        Err(refusal) => {
            arguments::refuse(err, refusal.number());
        }
    }
}

// The same with so many places of room. In a slice longer than the longest list what has no room is none.
fn add_in(rt: &impl Print, err: &impl Print, bytes: &mut [u8], n: usize, room: u32, star: Star) {
    let size = room as usize * list::WIDTH;
    if !lent::has_room(bytes.len(), n, size) {
        arguments::refuse(err, Refusal::List.number());
        return;
    }
    add_star(rt, err, &mut bytes[..n + size], n, star);
}

// The same with the room and the star that the arguments say.
fn add(rt: &(impl Env + Print), err: &impl Print, bytes: &mut [u8], n: usize) {
    let Some(room) = arguments::unsigned_of(rt, 2) else {
        complain(err, 2);
        return;
    };
    match star_of(rt) {
        Ok(star) => {
            add_in(rt, err, bytes, n, room, star);
        }
        Err(i) => {
            complain(err, i);
        }
    }
}

// ---- gather

// How many bytes are printed of a gathered list: all of them, or those before its first empty place.
fn printed(bytes: &[u8], cut: bool) -> usize
    ensures { result ≡ cond cut (index_of 0 (stars bytes.now) * width) (length bytes.now) }
{
    if cut {
        return list::index_of(bytes, 0) * list::WIDTH;
    }
    bytes.len()
}

// The list gathered.
fn gather(rt: &impl Print, err: &impl Print, bytes: &mut [u8], cut: bool) {
    match list_edit::gather(bytes) {
        Ok(()) => {
            let k = printed(bytes, cut);
            arguments::write(rt, err, &bytes[..k]);
        }
        Err(refusal) => {
            arguments::refuse(err, refusal.number());
        }
    }
}

fn main(rt: HostRuntime) {
    let err = rt.stderr();
    let mut input = [0u8; list::READ];
    let n = arguments::read(&mut rt.reader(), &mut input);
    if arguments::is_argument(&rt, 1, b"strike") {
        strike(&rt, &err, &mut input[..n]);
        return;
    }
    if arguments::is_argument(&rt, 1, b"add") {
        add(&rt, &err, &mut input, n);
        return;
    }
    gather(
        &rt,
        &err,
        &mut input[..n],
        arguments::is_argument(&rt, 2, b"--cut"),
    );
}
