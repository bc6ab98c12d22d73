//! Tests of what each watcher says of verdicts that it has seen.
use ln_base::Sign;
use ln_code::{By, Verdict};
use ln_watch::{DeciderWatch, FirstWatch, Keep, Line, SignWatch, Watch};

fn verdict(sign: Sign, by: By) -> Verdict {
    Verdict {
        sign,
        by,
        wide: 3,
        calls: 1,
    }
}

#[test]
fn signs_and_deciders_are_counted(rt: HostRuntime) {
    let mut signs = SignWatch::new();
    let mut deciders = DeciderWatch::new();
    for (sign, by) in [
        (Sign::Plus, By::Stage(4)),
        (Sign::Minus, By::Stage(0)),
        (Sign::Zero, By::Nothing),
        (Sign::Plus, By::Filter),
    ] {
        let v = verdict(sign, by);
        assert!(rt; signs.see(7, &v) == Keep::Stay && deciders.see(7, &v) == Keep::Stay);
    }
    let mut text = Line::new();
    signs.line(&mut text);
    assert!(rt; text.bytes() == b"signs + 2 0 1 - 1".as_slice());
    deciders.line(&mut text);
    assert!(rt; text.bytes() == b"deciders filter 1 plain 1 stages 1 none 1 deepest 4".as_slice());
    assert!(rt; signs.kind() == 1 && deciders.kind() == 2);
}

#[test]
fn the_first_perturbed_rows_are_kept(rt: HostRuntime) {
    let mut first = FirstWatch::new(2);
    assert!(rt; first.see(5, &verdict(Sign::Plus, By::Filter)) == Keep::Stay);
    assert!(rt; first.see(6, &verdict(Sign::Plus, By::Stage(0))) == Keep::Stay);
    assert!(rt; first.see(u64::MAX, &verdict(Sign::Minus, By::Stage(1))) == Keep::Stay);
    assert!(rt; first.see(8, &verdict(Sign::Plus, By::Stage(2))) == Keep::Done);
    let mut text = Line::new();
    first.line(&mut text);
    assert!(rt; text.bytes() == b"first 18446744073709551615 8".as_slice());
    assert!(rt; first.kind() == 3);
}
