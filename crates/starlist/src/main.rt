// Prints the sheet of the star list that stands on standard input, with every star's yearly changes where the argument is `--rates`.
#![tactic(auto)]

fn main(rt: HostRuntime) {
    let rates = arguments::is_argument(&rt, 1, b"--rates");
    let mut input = [0u8; list::READ];
    let n = arguments::read(&mut rt.reader(), &mut input);
    let mut out = [0u8; text_sheet::ROOM];
    if let Ok(k) = text_sheet::render(&input[..n], rates, &mut out) {
        arguments::write(&rt, &rt.stderr(), &out[..k]);
    }
}
