use im_words::{Asked, Mode, Word, WordsFault, read_words};
use std::alloc::Global;
use std::test::Fail;

/// What `ime run` asks for: the numbers are those that the manual gives where an option is left out.
const USUAL: Asked = Asked {
    mode: Mode::Run,
    area: 67_108_864,
    workers: 1,
    turns: 100_000,
    rows: 5_000,
    seed: 1,
};

fn read(alloc: Global, line: &str) -> Result<Result<Asked, WordsFault>, Fail> {
    let mut words = Vec::new(alloc);
    for text in line.split(' ') {
        words.push(Word::of(String::from_str(alloc, text)?))?;
    }
    Ok(read_words(alloc, words.as_slice()))
}

#[test]
fn words_that_clap_takes_come_to_what_stands_in_them(rt: HostRuntime) -> Result<(), Fail> {
    let alloc = rt.alloc();
    let all = Asked {
        area: 0,
        workers: 8,
        turns: 1_000_000,
        rows: 500_000,
        seed: 4_294_967_295,
        ..USUAL
    };
    let cases = [
        ("ime run", USUAL),
        ("ime run --area 5", Asked { area: 5, ..USUAL }),
        (
            "ime --area=5 run --seed 0",
            Asked {
                area: 5,
                seed: 0,
                ..USUAL
            },
        ),
        (
            "ime run --area 0 --workers 8 --turns 1000000 --rows 500000 --seed 4294967295",
            all,
        ),
        (
            "ime --seed 4294967295 --rows=500000 run --turns 1000000 --workers=8 --area 0",
            all,
        ),
        (
            "ime --area 1073741824 --workers=1 --turns=1 --rows=1 run",
            Asked {
                area: 1_073_741_824,
                turns: 1,
                rows: 1,
                ..USUAL
            },
        ),
        (
            "ime race",
            Asked {
                mode: Mode::Race,
                ..USUAL
            },
        ),
        (
            "ime --turns=20 race --workers 3",
            Asked {
                mode: Mode::Race,
                workers: 3,
                turns: 20,
                ..USUAL
            },
        ),
        (
            "ime gen",
            Asked {
                mode: Mode::Gen,
                ..USUAL
            },
        ),
        (
            "ime --seed 0 gen --rows=7",
            Asked {
                mode: Mode::Gen,
                rows: 7,
                seed: 0,
                ..USUAL
            },
        ),
        // Not good words, but `clap` takes them.
        ("ime run --area 05", Asked { area: 5, ..USUAL }),
        ("ime run --area=+5", Asked { area: 5, ..USUAL }),
        ("ime --area 5 -- run", Asked { area: 5, ..USUAL }),
    ];
    for (line, asked) in cases.iter() {
        assert_eq!(rt; read(alloc, line)?, Ok(*asked), "{line}");
    }
    Ok(())
}

#[test]
fn words_that_clap_refuses_are_wrong(rt: HostRuntime) -> Result<(), Fail> {
    let alloc = rt.alloc();
    let cases = [
        "ime",
        "ime Run",
        "ime rac",
        "ime gens",
        "ime run run",
        "ime race gen",
        "ime run --area 1073741825",
        "ime run --workers 0",
        "ime run --workers 9",
        "ime run --turns 0",
        "ime run --turns 1000001",
        "ime run --rows 0",
        "ime run --rows 500001",
        "ime run --seed 4294967296",
        "ime run --area -1",
        "ime run --area=",
        "ime run --area 5x",
        "ime run --area",
        "ime run --area 5 --area 5",
        "ime run --are 5",
        "ime run --help",
        "ime help",
        "ime run -V",
    ];
    for line in cases.iter() {
        assert_eq!(rt; read(alloc, line)?, Err(WordsFault::Usage), "{line}");
    }
    assert_eq!(rt; read_words(alloc, &[]), Err(WordsFault::Usage));
    Ok(())
}
