// Short texts, and what comes of them.
use variables::refusal::Refusal;
use wcsp::load::load;
use words::fault::{Fault, Flaw};

// The fault of a text, in an area of a few cells.
fn fault(text: &[u8]) -> Option<Fault> {
    let mut area = [0; 16];
    load(text, &mut area).err()
}

#[test]
fn each_fault_has_its_place(rt: HostRuntime) {
    let rows: [(&[u8], Flaw, usize); 16] = [
        (b"t 0 1 0 9 1", Flaw::Rule(Refusal::Variables), 2),
        (b"t 33 1 0 9 1", Flaw::Rule(Refusal::Variables), 2),
        (b"t 1 16 0 9 0", Flaw::Rule(Refusal::Size), 11),
        (b"t 1 17 0 9 17", Flaw::Rule(Refusal::Size), 11),
        (b"t 1 15 0 9 16", Flaw::AboveMaximum, 11),
        (b"t 1 1 65 9 1", Flaw::Rule(Refusal::Functions), 6),
        (b"t 1 1 64 9 1", Flaw::Ended, 12),
        (b"t 1 1 1 9 1 6", Flaw::Rule(Refusal::Scope), 12),
        (b"t 2 1 1 9 1 1 1 2", Flaw::Rule(Refusal::Scope), 16),
        (b"t 2 1 1 9 1 1 2 1 1", Flaw::Rule(Refusal::Scope), 18),
        (b"t 2 4 1 9 4 4 2 0 1 5 0", Flaw::Rule(Refusal::Room), 20),
        (b"t 1 2 1 9 2 1 0 5 1 2 7", Flaw::Rule(Refusal::Tuple), 20),
        (b"t 1 1 0 4294967296 1", Flaw::NoNumber, 8),
        (b"t 1 1 0 00000000009 1", Flaw::NoNumber, 8),
        (b"t 1 1 0 9 1 x", Flaw::LeftOver, 12),
        (b"  ", Flaw::Ended, 2),
    ];
    for (text, flaw, at) in rows {
        assert_eq!(rt; fault(text), Some(Fault { flaw, at }));
    }
}

#[test]
fn what_is_just_within_is_loaded(rt: HostRuntime) {
    let rows: [&[u8]; 6] = [
        b"t 1 16 0 9 16",
        b"t 1 1 0 9 1",
        b"t 32 1 0 9 1 1 1 1 1 1 1 1 1 1 1 1 1 1 1 1 1 1 1 1 1 1 1 1 1 1 1 1 1 1 1 1",
        b"t 2 7 1 9 2 7 2 0 1 5 0",
        b"t 1 2 1 9 2 1 0 5 1 1 7\n",
        b"t 1 1 0 4294967295 1",
    ];
    for text in rows {
        assert_eq!(rt; fault(text), None);
    }
}

#[test]
fn a_text_cut_off_has_ended(rt: HostRuntime) {
    let text = b"t 2 3 1 9 2 3 2 1 0 5 1 2 0 7";
    assert_eq!(rt; fault(text), None);
    for (end, byte) in text.iter().enumerate() {
        if *byte == b' ' {
            let flaw = Flaw::Ended;
            assert_eq!(rt; fault(&text[..end]), Some(Fault { flaw, at: end }));
        }
    }
}

#[test]
fn the_later_cost_counts(rt: HostRuntime) {
    let mut area = [1; 6];
    assert!(rt; load(b"t 1 3 1 9 3 1 0 5 2 1 7 1 8", &mut area).is_ok());
    assert_eq!(rt; area, [1, 1, 5, 8, 5, 1]);
}

#[test]
fn lengths(rt: HostRuntime) {
    let long = [b' '; 65_536];
    assert_eq!(rt;
        fault(&long),
        Some(Fault {
            flaw: Flaw::TextLength,
            at: 0,
        })
    );
    assert_eq!(rt;
        fault(&long[1..]),
        Some(Fault {
            flaw: Flaw::Ended,
            at: 65_535,
        })
    );
    let text = b"t 1 1 0 9 1";
    let none = Some(Fault {
        flaw: Flaw::Job(Refusal::Area),
        at: 0,
    });
    assert_eq!(rt; load(text, &mut [0; 1]).err(), none);
    assert_eq!(rt; load(text, &mut [0; 2]).err(), None);
    assert_eq!(rt; load(text, &mut [0; 16_384]).err(), None);
    assert_eq!(rt; load(text, &mut [0; 16_385]).err(), none);
}
