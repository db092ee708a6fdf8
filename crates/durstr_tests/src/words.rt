use duration_str::Options;
use durstr_run::{RunFault, ending, with_word};

#[test]
fn sets_the_field_of_each_word(rt: HostRuntime) {
    let off = Options::off();
    let on = Options {
        no_calc: true,
        lowercase: true,
        cn_unit: true,
    };
    let rows = [
        (
            "no_calc",
            Options {
                no_calc: true,
                ..off
            },
        ),
        (
            "lowercase",
            Options {
                lowercase: true,
                ..off
            },
        ),
        (
            "cn_unit",
            Options {
                cn_unit: true,
                ..off
            },
        ),
    ];
    for (word, wanted) in rows {
        let is_set = with_word(off, word) == Some(wanted);
        assert!(rt; is_set && with_word(on, word) == Some(on), "{word}");
    }
    for word in ["nocalc", "", "NO_CALC", "no_calc "] {
        assert!(rt; with_word(off, word).is_none(), "{word}");
    }
}

#[test]
fn ends_by_the_answer(rt: HostRuntime) {
    let rows = [
        (Ok(true), (0, "")),
        (Ok(false), (1, "")),
        (Err(RunFault::Read), (2, "durstr: read failed")),
        (Err(RunFault::Write), (2, "durstr: write failed")),
        (Err(RunFault::TooLong), (2, "durstr: input too long")),
        (Err(RunFault::Memory), (3, "durstr: out of memory")),
    ];
    for (answer, wanted) in rows {
        let (status, line) = wanted;
        assert!(rt; ending(answer) == wanted, "{status}: {line}");
    }
}
