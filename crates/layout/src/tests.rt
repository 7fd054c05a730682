// Fields and lines, in the layout and out of it.
use crate::{
    Line, Reading, line_at, read_code, read_number, read_numbers, write_field, write_line,
    write_weight,
};
use std::test::Fail;

#[test]
fn numbers(rt: HostRuntime) {
    assert_eq!(rt; read_number(b"     0"), Some(0));
    assert_eq!(rt; read_number(b"    10"), Some(10));
    assert_eq!(rt; read_number(b"999999"), Some(999999));
}

#[test]
fn no_numbers(rt: HostRuntime) {
    assert_eq!(rt; read_number(b"000001"), None);
    assert_eq!(rt; read_number(b"    -1"), None);
    assert_eq!(rt; read_number(b"     +1"), None);
    assert_eq!(rt; read_number(b"      "), None);
    assert_eq!(rt; read_number(b"  1 23"), None);
    assert_eq!(rt; read_number(b"1     "), None);
    assert_eq!(rt; read_number(b"   \t 1"), None);
    assert_eq!(rt; read_number(b"    \xb91"), None);
    assert_eq!(rt; read_number(b""), None);
}

#[test]
fn codes(rt: HostRuntime) {
    assert_eq!(rt; read_code(b"-99999999999"), Some(-99999999999));
    assert_eq!(rt; read_code(b"999999999999"), Some(999999999999));
    assert_eq!(rt; read_code(b"          -1"), Some(-1));
    assert_eq!(rt; read_code(b"           0"), Some(0));
}

#[test]
fn no_codes(rt: HostRuntime) {
    assert_eq!(rt; read_code(b"          -0"), None);
    assert_eq!(rt; read_code(b"           -"), None);
    assert_eq!(rt; read_code(b"         - 1"), None);
    assert_eq!(rt; read_code(b"         --1"), None);
    assert_eq!(rt; read_code(b"         -01"), None);
    assert_eq!(rt; read_code(b"     1"), None);
}

// What the line at the start of a page says, and where the next line begins.
fn first_line(page: &[u8]) -> Option<(Line, usize)> {
    let Reading { line, next } = line_at(page, 0)?;
    Some((line, next))
}

#[test]
fn lines(rt: HostRuntime) {
    assert_eq!(rt;
        first_line(b"K     2\n"),
        Some((Line::Kind { number: 2 }, 8))
    );
    assert_eq!(rt;
        first_line(b"T     7\n"),
        Some((
            Line::Table {
                states: 7,
                ranks: b""
            },
            8
        ))
    );
    assert_eq!(rt;
        first_line(b"T     7     1\nE\n"),
        Some((
            Line::Table {
                states: 7,
                ranks: b"     1"
            },
            14
        ))
    );
    assert_eq!(rt;
        first_line(b"A     5\n"),
        Some((Line::Accept { state: 5 }, 8))
    );
    assert_eq!(rt; first_line(b"E\n"), Some((Line::End, 2)));
}

#[test]
fn no_lines(rt: HostRuntime) {
    assert_eq!(rt; first_line(b""), None);
    assert_eq!(rt; first_line(b"\n"), None);
    assert_eq!(rt; first_line(b"X     1\n"), None);
    assert_eq!(rt; first_line(b"k     1\n"), None);
    assert_eq!(rt; first_line(b"K     1     2\n"), None);
    assert_eq!(rt; first_line(b"K\n"), None);
    assert_eq!(rt; first_line(b"T\n"), None);
    assert_eq!(rt; first_line(b"T     7     1 \n"), None);
    assert_eq!(rt; first_line(b"E \n"), None);
    assert_eq!(rt; first_line(b"K     1\r\n"), None);
    assert_eq!(rt; first_line(b"E"), None);
}

#[test]
fn rules(rt: HostRuntime) {
    assert_eq!(rt;
        first_line(b"R     1     2           3\n"),
        Some((
            Line::Rule {
                symbol: 1,
                target: 2,
                weight: b"           3",
                children: b""
            },
            26
        ))
    );
    assert_eq!(rt;
        first_line(b"R     1     2           3     4     5     6     7\n"),
        Some((
            Line::Rule {
                symbol: 1,
                target: 2,
                weight: b"           3",
                children: b"     4     5     6     7"
            },
            50
        ))
    );
    assert_eq!(rt;
        first_line(b"R     1     2           3     4     5     6     7     8\n"),
        None
    );
    assert_eq!(rt; first_line(b"R     1     2\n"), None);
    assert_eq!(rt; first_line(b"R     1     2           3     4 \n"), None);
}

#[test]
fn other_places(rt: HostRuntime) {
    let page = b"E\nA     5\n";
    assert!(rt; line_at(page, 2).is_some());
    assert!(rt; line_at(page, 1).is_none());
    assert!(rt; line_at(page, 10).is_none());
    assert!(rt; line_at(page, 11).is_none());
}

#[test]
fn forty_ranks(rt: HostRuntime) -> Result<(), Fail> {
    let heap = rt.alloc();
    let mut page = Vec::new(heap);
    write_line(&mut page, b'T', &[4; 41])?;
    let Some((Line::Table { states, ranks }, next)) = first_line(&page) else {
        return Err(Fail::new("no table"));
    };
    assert_eq!(rt; (states, ranks.len(), next), (4, 240, 248));
    assert!(rt; read_numbers(heap, ranks)?.as_slice() == [4usize; 40].as_slice());
    Ok(())
}

#[test]
fn written(rt: HostRuntime) -> Result<(), Fail> {
    let mut page = Vec::new(rt.alloc());
    write_field(&mut page, 12, -99999999999)?;
    write_field(&mut page, 3, 1234)?;
    write_line(&mut page, b'A', &[0, 999999])?;
    write_weight(&mut page, 1, Some(-7))?;
    write_weight(&mut page, 12, None)?;
    assert!(rt;
        page.as_slice()
            == b"-999999999991234A     0999999\nW     1     1          -7\nW    12     0           0\n".as_slice()
    );
    Ok(())
}
