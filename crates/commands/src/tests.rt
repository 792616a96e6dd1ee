//! Texts of commands, with their columns counted by hand.
use crate::{BadText, lines_wanted, read_command};
use dialogue::{Change, Command};
use ports::Stop;
use std::alloc::Global;
use std::test::Fail;

/// Why a text is no command, and where.
fn bad(alloc: Global, text: &[u8]) -> Option<BadText> {
    match read_command(alloc, text) {
        Ok(_) => None,
        Err(Stop::NoMemory) => None,
        Err(Stop::Why(why)) => Some(why),
    }
}

fn is_syntax(alloc: Global, text: &[u8], column: u64) -> bool {
    bad(alloc, text) == Some(BadText::Syntax { column })
}

fn is_range(alloc: Global, text: &[u8], column: u64) -> bool {
    bad(alloc, text) == Some(BadText::Range { column })
}

fn is_none(alloc: Global, text: &[u8]) -> bool {
    matches!(&read_command(alloc, text), Ok(None))
}

fn is_command(alloc: Global, text: &[u8]) -> bool {
    matches!(&read_command(alloc, text), Ok(Some(_)))
}

#[test]
fn every_command_is_read(rt: HostRuntime) -> Result<(), Fail> {
    let alloc = rt.alloc();
    assert!(rt; is_command(alloc, b"new sq") && is_command(alloc, b"new sq 2 1\r\n"));
    assert!(rt; is_command(alloc, b"list\n") && is_command(alloc, b"show sq\n"));
    assert!(rt; is_command(alloc, b"\tfaults  sq \n") && is_command(alloc, b"pattern a-_0"));
    assert!(rt; is_command(alloc, b"  cp sq") && is_command(alloc, b"fold sq"));
    assert!(rt; is_command(alloc, b"vertex sq 2-1r/2,1"));
    assert!(rt;
        is_command(alloc, b"draw sq M 0,0 1,-1+1r") && is_command(alloc, b"erase sq 0,0 1,1")
    );
    assert!(rt; is_command(alloc, b"recolour sq A 0,0 1,1") && is_command(alloc, b"flip sq"));
    assert!(rt;
        is_command(alloc, b"extend sq V 0,1/2 15") && is_command(alloc, b"bisect sq M 0,0 0 4")
    );
    assert!(rt; is_command(alloc, b"mirror sq 1/2,0 4"));
    assert!(rt; is_command(alloc, b"rabbit-ear sq V 0,0 1,0 0,1"));
    Ok(())
}

#[test]
fn revs_are_read_behind_names(rt: HostRuntime) -> Result<(), Fail> {
    let alloc = rt.alloc();
    assert!(rt; is_command(alloc, b"undo sq@1000000000000") && is_command(alloc, b"redo sq"));
    assert!(rt; is_command(alloc, b"draw sq@0 M 0,0 1,1"));
    assert!(rt; is_syntax(alloc, b"draw sq@01 V 0,1 1,0", 6));
    assert!(rt; is_syntax(alloc, b"undo sq@1000000000001", 6));
    assert!(rt; is_syntax(alloc, b"undo sq@", 6));
    assert!(rt; is_syntax(alloc, b"undo @1", 6));
    assert!(rt; is_syntax(alloc, b"undo sq@1@2", 6));
    assert!(rt; is_syntax(alloc, b"undo sq@+1", 6));
    assert!(rt; is_syntax(alloc, b"show sq@1", 6));
    Ok(())
}

#[test]
fn the_first_wrong_word_gives_the_column(rt: HostRuntime) -> Result<(), Fail> {
    let alloc = rt.alloc();
    assert!(rt; is_command(alloc, b"draw sq A 0,1/1048576 1,1/1048576"));
    assert!(rt; is_range(alloc, b"draw sq A 0,1/1048577 1,1/1048577", 11));
    assert!(rt; is_syntax(alloc, b"draw sq A 0,2/4 1,1/2", 11));
    assert!(rt; is_range(alloc, b"draw sq M 0,0 1/1048577,x", 15));
    assert!(rt; is_syntax(alloc, b"draw sq Q 0,1/1048577 1,1", 9));
    assert!(rt; is_syntax(alloc, b"draw Sq Q 0,0 1,1", 6));
    assert!(rt; is_syntax(alloc, b"rabbit-ear sq A 0,0 1,0 0,1", 15));
    assert!(rt; is_syntax(alloc, b"extend sq V 0,1/2 16", 19));
    assert!(rt; is_syntax(alloc, b"extend sq V 0,1/2 00", 19));
    assert!(rt; is_syntax(alloc, b"new sq 9 1", 8));
    assert!(rt; is_syntax(alloc, b"new sq 9", 8));
    assert!(rt; is_syntax(alloc, b"new sq 2", 9));
    assert!(rt; is_syntax(alloc, b"new sq 2 0", 10));
    assert!(rt; is_syntax(alloc, b"new sq 2 1 1", 12));
    assert!(rt; is_syntax(alloc, b"show", 5));
    assert!(rt; is_syntax(alloc, b"show \r\n", 6));
    assert!(rt; is_syntax(alloc, b"show sq\x00", 6));
    assert!(rt; is_syntax(alloc, b"show s\rq", 6));
    assert!(rt; is_syntax(alloc, b"show sq sq", 9));
    assert!(rt; is_syntax(alloc, b"list list", 6));
    Ok(())
}

#[test]
fn first_words_are_tested(rt: HostRuntime) -> Result<(), Fail> {
    let alloc = rt.alloc();
    assert!(rt; is_syntax(alloc, b"  cpsq", 3));
    assert!(rt; is_syntax(alloc, b"serve sq", 1));
    assert!(rt; is_syntax(alloc, b"List", 1));
    assert!(rt; is_syntax(alloc, b"\xff", 1));
    assert!(rt; is_none(alloc, b""));
    assert!(rt; is_none(alloc, b" \t\r\n"));
    assert!(rt; is_none(alloc, b"\t# draw sq"));
    assert!(rt; is_none(alloc, b"#draw sq\n"));
    Ok(())
}

#[test]
fn a_command_is_one_line(rt: HostRuntime) -> Result<(), Fail> {
    let alloc = rt.alloc();
    assert!(rt; is_syntax(alloc, b"flip sq\n\n", 1));
    assert!(rt; is_syntax(alloc, b"list\nlist", 1));
    assert!(rt; is_syntax(alloc, b"list sq\nlist", 6));
    let mut text = [b' '; 4099];
    text[..4].copy_from_slice(b"list");
    assert!(rt; is_command(alloc, &text[..4096]));
    assert!(rt; is_syntax(alloc, &text[..4097], 4097));
    text[4096] = b'\r';
    text[4097] = b'\n';
    assert!(rt; is_command(alloc, &text[..4098]));
    text[0] = b'#';
    assert!(rt; is_none(alloc, &text));
    text[0] = b'x';
    text[4096] = b'x';
    assert!(rt; is_syntax(alloc, &text[..4098], 4097));
    assert!(rt; is_none(alloc, &[b' '; 5000]));
    Ok(())
}

#[test]
fn words_of_an_import_are_tested(rt: HostRuntime) -> Result<(), Fail> {
    let alloc = rt.alloc();
    assert!(rt; is_command(alloc, b"import sq@3 1 1024 1 0"));
    assert!(rt; is_syntax(alloc, b"import sq 0 128 1000 1", 11));
    assert!(rt; is_syntax(alloc, b"import sq 1025 1025 1000 1", 11));
    assert!(rt; is_syntax(alloc, b"import sq 64 63 1000 1", 14));
    assert!(rt; is_syntax(alloc, b"import sq 64 1025 1000 1", 14));
    assert!(rt; is_syntax(alloc, b"import sq 64 128 0 1", 18));
    assert!(rt; is_syntax(alloc, b"import sq 64 128 100001 1", 18));
    assert!(rt; is_syntax(alloc, b"import sq 64 128 1000 40001", 23));
    assert!(rt; is_syntax(alloc, b"import sq 64 128 1000 01", 23));
    assert!(rt; is_syntax(alloc, b"import sq 64 128 1000", 22));
    assert!(rt; is_syntax(alloc, b"import sq 64 128 1000 1 1\na\n", 25));
    Ok(())
}

/// Whether a command imports this text.
fn imports(command: &Command, lines: &[u8]) -> bool {
    match command {
        Command::Change {
            name: _,
            rev: _,
            change,
        } => match change {
            Change::Import { lattice: _, text } => text.as_slice() == lines,
            _ => false,
        },
        _ => false,
    }
}

fn is_import(alloc: Global, text: &[u8], lines: &[u8]) -> bool {
    match read_command(alloc, text) {
        Ok(Some(command)) => imports(&command, lines),
        _ => false,
    }
}

#[test]
fn an_import_takes_its_lines(rt: HostRuntime) -> Result<(), Fail> {
    let alloc = rt.alloc();
    assert!(rt; is_import(alloc, b"import sq 64 128 1000 0\n", b""));
    assert!(rt;
        is_import(
            alloc,
            b"import sq 64 128 1000 2\n2 0 0 1 1\r\n\n",
            b"2 0 0 1 1\n\n"
        )
    );
    assert!(rt; is_import(alloc, b"import sq 64 128 1000 1\r\na", b"a\n"));
    assert!(rt; is_import(alloc, b"import sq 64 128 1000 1\nx\r\r\n", b"x\r\n"));
    assert!(rt; is_syntax(alloc, b"import sq 64 128 1000 2\n2 0 0 1 1\n", 23));
    assert!(rt; is_syntax(alloc, b"import sq 64 128 1000 1", 23));
    assert!(rt; is_syntax(alloc, b"import sq 64 128 1000 1\na\nb", 1));
    assert!(rt; is_syntax(alloc, b"import sq 64 128 1000 0\n\n", 1));
    Ok(())
}

#[test]
fn a_long_line_of_an_import_is_refused(rt: HostRuntime) -> Result<(), Fail> {
    let alloc = rt.alloc();
    let mut text = [b'x'; 4122];
    text[..24].copy_from_slice(b"import sq 64 128 1000 2\n");
    text[4121] = b'\n';
    assert!(rt; is_syntax(alloc, &text, 4097));
    assert!(rt; is_syntax(alloc, &text[..4120], 23));
    text[22] = b'0';
    assert!(rt; is_syntax(alloc, &text, 1));
    Ok(())
}

#[test]
fn an_import_wants_its_lines(rt: HostRuntime) -> Result<(), Fail> {
    assert!(rt; lines_wanted(b"import sq@3 64 128 1000 7\r") == 7);
    assert!(rt; lines_wanted(b"import sq 64 128 1000 40000") == 40_000);
    assert!(rt; lines_wanted(b"import sq 64 128 1000 7\r\r") == 0);
    assert!(rt; lines_wanted(b"import sq 64 63 1000 7") == 0);
    assert!(rt; lines_wanted(b"import sq 64 128 1000 7 7") == 0);
    assert!(rt; lines_wanted(b"list") == 0 && lines_wanted(b"# import") == 0);
    let mut line = [b' '; 4097];
    line[..23].copy_from_slice(b"import sq 64 128 1000 2");
    assert!(rt; lines_wanted(&line) == 0);
    assert!(rt; lines_wanted(&line[..4096]) == 2);
    Ok(())
}
