//! Texts of outcomes and of values.
use crate::tests::is_text;
use bac_print::{Checked, WriteFailed, show_outcome, show_value};
use bac_tsm::Outcome;

// The text of each outcome is tested by the scripts. This test shows that it is written, and that failures are
// reported.
#[test]
fn an_outcome_and_a_region_are_shown(rt: HostRuntime) {
    let mut room = [0xff; 96];
    let got = show_outcome(&Outcome::Abort(4), &mut Checked::new(room.as_mut_slice()));
    assert!(rt; got == Ok(()) && is_text(&room, "abort 4"));
    let mut room = [0; 3];
    let got = show_outcome(&Outcome::Segmented, &mut Checked::new(room.as_mut_slice()));
    assert!(rt; got == Err(WriteFailed) && room.as_slice() == b"seg".as_slice());
    assert!(rt; is_shown(b"\x21\x05\x21\x06", "{5,6}"));
    assert!(rt; is_shown(b"\x44\x42\x90\x99", "hex 44429099"));
}

fn is_shown(region: &[u8], text: &str) -> bool {
    let mut room = [0xff; 96];
    let got = show_value(region, &mut Checked::new(room.as_mut_slice()));
    got == Ok(()) && is_text(&room, text)
}
