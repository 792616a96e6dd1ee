//! Words of the command line, worked by hand.
use crate::{Ask, asked, keep_wanted};
use std::alloc::Global;
use std::test::Fail;

/// The words as strings.
fn strings(alloc: Global, words: &[&str]) -> Result<Vec<String>, Fail> {
    let mut strings = Vec::new(alloc);
    for word in words {
        strings.push(String::from_str(alloc, word)?)?;
    }
    Ok(strings)
}

/// Whether the words ask for this.
fn ask_for(alloc: Global, words: &[String], wanted: &Ask<'_>) -> bool {
    match asked(alloc, words) {
        Ok(ask) => ask == *wanted,
        Err(_) => false,
    }
}

/// Whether the words ask for the usage text.
fn ask_for_usage(alloc: Global, words: &[String]) -> bool {
    match asked(alloc, words) {
        Ok(Ask::Usage) => true,
        _ => false,
    }
}

/// Whether the words ask for a subdivision.
fn ask_for_cut(alloc: Global, words: &[String]) -> bool {
    match asked(alloc, words) {
        Ok(Ask::Cut) => true,
        _ => false,
    }
}

/// The seed and the number of turns that the words give.
fn turns(alloc: Global, words: &[String]) -> (u64, u64) {
    match asked(alloc, words) {
        Ok(Ask::Generate { seed, count }) => (seed, count),
        _ => (0, 0),
    }
}

/// Whether these words ask for the usage text.
fn is_usage(alloc: Global, words: &[&str]) -> Result<bool, Fail> {
    let words = strings(alloc, words)?;
    Ok(ask_for_usage(alloc, &words))
}

/// Whether these words ask for a keeper in a file.
fn wants(alloc: Global, words: &[&str]) -> Result<bool, Fail> {
    let words = strings(alloc, words)?;
    Ok(keep_wanted(&words))
}

/// The numbers of `check`: d, k, the tolerance, the width and the height.
fn numbers_of(ask: &Ask<'_>) -> [u32; 5] {
    match ask {
        Ask::Check { lattice, sheet } => {
            let w = u32::from(sheet.w());
            let h = u32::from(sheet.h());
            [lattice.d(), lattice.k(), lattice.tol(), w, h]
        }
        _ => [0; 5],
    }
}

/// The numbers of `check` that the words give.
fn numbers(alloc: Global, words: &[String]) -> [u32; 5] {
    match asked(alloc, words) {
        Ok(ask) => numbers_of(&ask),
        Err(_) => [0; 5],
    }
}

#[test]
fn a_command_may_have_no_words(rt: HostRuntime) -> Result<(), Fail> {
    let alloc = rt.alloc();
    let words = strings(alloc, &["cut"])?;
    assert!(rt; ask_for_cut(alloc, &words));
    assert!(rt; is_usage(alloc, &["cut", "cut"])? && is_usage(alloc, &["Cut"])?);
    assert!(rt; is_usage(alloc, &[])? && is_usage(alloc, &["--keep", "p"])?);
    Ok(())
}

#[test]
fn options_of_check_come_in_any_order(rt: HostRuntime) -> Result<(), Fail> {
    let alloc = rt.alloc();
    let words = strings(alloc, &["check"])?;
    assert!(rt; numbers(alloc, &words) == [64, 128, 1000, 1, 1]);
    let words = [
        "check", "--h=3", "--k", "50", "--tol=7", "--w", "2", "--d=50",
    ];
    let words = strings(alloc, &words)?;
    assert!(rt; numbers(alloc, &words) == [50, 50, 7, 2, 3]);
    Ok(())
}

#[test]
fn check_refuses_other_words(rt: HostRuntime) -> Result<(), Fail> {
    let alloc = rt.alloc();
    assert!(rt; is_usage(alloc, &["check", "--d", "256"])?);
    assert!(rt; is_usage(alloc, &["check", "--d", "4", "--d=4"])?);
    assert!(rt; is_usage(alloc, &["check", "--tol", "100001"])?);
    assert!(rt; is_usage(alloc, &["check", "--w"])? && is_usage(alloc, &["check", "--w="])?);
    assert!(rt; is_usage(alloc, &["check", "--keep", "p"])?);
    Ok(())
}

#[test]
fn a_script_may_have_a_path(rt: HostRuntime) -> Result<(), Fail> {
    let alloc = rt.alloc();
    let kept = Ask::Script { keep: Some("a=b") };
    let words = strings(alloc, &["script", "--keep", "a=b"])?;
    assert!(rt; ask_for(alloc, &words, &kept));
    let words = strings(alloc, &["script", "--keep=a=b"])?;
    assert!(rt; ask_for(alloc, &words, &kept));
    let alone = Ask::Script { keep: None };
    let words = strings(alloc, &["script"])?;
    assert!(rt; ask_for(alloc, &words, &alone));
    Ok(())
}

#[test]
fn script_refuses_other_words(rt: HostRuntime) -> Result<(), Fail> {
    let alloc = rt.alloc();
    assert!(rt; is_usage(alloc, &["script", "--keep", ""])?);
    assert!(rt; is_usage(alloc, &["script", "--keep", "-p"])?);
    assert!(rt; is_usage(alloc, &["script", "--keeper=p"])?);
    assert!(rt; is_usage(alloc, &["script", "-"])? && is_usage(alloc, &["script", "--"])?);
    assert!(rt; is_usage(alloc, &["script", ""])? && is_usage(alloc, &["script", "p"])?);
    Ok(())
}

#[test]
fn a_generator_has_two_numbers(rt: HostRuntime) -> Result<(), Fail> {
    let alloc = rt.alloc();
    let words = strings(alloc, &["generate", "18446744073709551615", "100000"])?;
    assert!(rt; turns(alloc, &words) == (u64::MAX, 100_000));
    assert!(rt; is_usage(alloc, &["generate", "18446744073709551616", "1"])?);
    assert!(rt; is_usage(alloc, &["generate", "1", "100001"])?);
    assert!(rt; is_usage(alloc, &["generate", "1", "02"])? && is_usage(alloc, &["generate", "1"])?);
    Ok(())
}

#[test]
fn a_port_stands_among_options(rt: HostRuntime) -> Result<(), Fail> {
    let alloc = rt.alloc();
    let words = strings(
        alloc,
        &["serve", "--connections", "1000000", "65535", "--keep=p"],
    )?;
    let most = Ask::Serve {
        port: 65_535,
        connections: 1_000_000,
        keep: Some("p"),
    };
    assert!(rt; ask_for(alloc, &words, &most));
    let words = strings(alloc, &["serve", "8080"])?;
    let alone = Ask::Serve {
        port: 8080,
        connections: u64::MAX,
        keep: None,
    };
    assert!(rt; ask_for(alloc, &words, &alone));
    Ok(())
}

#[test]
fn serve_refuses_other_words(rt: HostRuntime) -> Result<(), Fail> {
    let alloc = rt.alloc();
    assert!(rt; is_usage(alloc, &["serve", "0"])? && is_usage(alloc, &["serve", "65536"])?);
    assert!(rt; is_usage(alloc, &["serve"])? && is_usage(alloc, &["serve", "80", "81"])?);
    assert!(rt; is_usage(alloc, &["serve", "80", "--connections", "0"])?);
    assert!(rt; is_usage(alloc, &["serve", "80", "--connections=1000001"])?);
    Ok(())
}

#[test]
fn these_words_want_a_keeper(rt: HostRuntime) -> Result<(), Fail> {
    let alloc = rt.alloc();
    assert!(rt; wants(alloc, &["script", "--keep", "p"])?);
    assert!(rt; wants(alloc, &["serve", "80", "--keep=p"])?);
    assert!(rt;
        !wants(alloc, &["script", "--keeper"])? && !wants(alloc, &["check", "--keep", "p"])?
    );
    assert!(rt; !wants(alloc, &["--keep"])? && !wants(alloc, &["script"])?);
    Ok(())
}
