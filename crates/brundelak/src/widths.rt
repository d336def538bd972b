// Lists of records of 12 bytes, without yearly changes, moved up to 20 and back down.
ghost use Rattle.list_widths.specs.rules.Widths.{to_wide, to_narrow};
ghost use Rattle.brundelak.specs.rules.Put.{HandedPut};

use brundelak_handed::hand_value;

// A list of records of 12 bytes as a list of 20, and how many bytes were written. Refusals: 8 (no such list); 9; 8 (a short slice).
#[unsafe(no_mangle)]
pub extern "C" fn brundelak_list_12_to_20(bytes: &[u8], out: &mut [u8], written: &mut usize) -> u8
    ensures { HandedPut (to_wide bytes.now) out.old 0 result written.old out.new written.new }
{
    hand_value(list_widths::list_12_to_20(bytes, out), written)
}

// A list of records of 20 bytes as a list of 12, and how many bytes were written. Refusals: 8 (no list); 9; 17 (a yearly change is not zero);
// 8 (a short slice).
#[unsafe(no_mangle)]
pub extern "C" fn brundelak_list_20_to_12(bytes: &[u8], out: &mut [u8], written: &mut usize) -> u8
    ensures { HandedPut (to_narrow bytes.now) out.old 0 result written.old out.new written.new }
{
    hand_value(list_widths::list_20_to_12(bytes, out), written)
}
