//! Examples, worked out by hand.
use crate::{Cause, Entry, Fault, Head, LONGEST, Lexer, Token, rates, read};
use packing::{OpeningRefusal, Refusal, SHEET_TASKS};
use std::alloc::Global;
use std::process::Abort;
use std::test::Fail;

const SHEET: &[u8] = b"BLS,1\ncores,2\nunit,10\nframes,6\ntask,A,5,2\ntask,B7,0,3\n";

/// The number, the line and the place of a fault.
fn numbers(fault: Fault) -> [usize; 3] {
    [usize::from(fault.number()), fault.line, fault.place]
}

/// Those of a refused sheet; zeros for one that reads.
fn told(sheet: &[u8]) -> [usize; 3] {
    let mut table = [Entry::BLANK; SHEET_TASKS];
    match read(sheet, &mut table) {
        Ok(_) => [0; 3],
        Err(fault) => numbers(fault),
    }
}

/// A part of a sheet, and the number, the line and the place of the fault; zeros where there is none.
#[derive(Clone, Copy)]
struct Row<'a> {
    text: &'a [u8],
    fault: [usize; 3],
}

/// Checks sheets that have the same front and the same back.
fn check_sheets(
    rt: &impl Abort,
    heap: Global,
    front: &[u8],
    rows: &[Row],
    back: &[u8],
) -> Result<(), Fail> {
    for row in rows.iter() {
        let mut sheet = Vec::new(heap);
        sheet.extend_from_slice(front)?;
        sheet.extend_from_slice(row.text)?;
        sheet.extend_from_slice(back)?;
        assert_eq!(rt; told(&sheet), row.fault);
    }
    Ok(())
}

fn told_by(text: &[u8], number: usize, line: usize, place: usize) -> Row {
    Row {
        text,
        fault: [number, line, place],
    }
}

#[test]
fn a_sheet_reads(rt: HostRuntime) {
    let mut table = [Entry::BLANK; SHEET_TASKS];
    let head = Head {
        cores: 2,
        unit: 10,
        frames: 6,
        tasks: 2,
    };
    let second = Entry {
        place: 47,
        size: 2,
        rate: 0,
        period: 3,
    };
    assert_eq!(rt; read(SHEET, &mut table).ok(), Some(head));
    assert_eq!(rt; table[1], second);
    assert_eq!(rt; table[1].name(SHEET), b"B7".as_slice());
    assert_eq!(rt; table[2], Entry::BLANK);
    assert_eq!(rt; rates(&table)[0], 5);
}

#[test]
fn a_refused_sheet_leaves_a_blank_table(rt: HostRuntime) {
    let mut table = [Entry::BLANK; SHEET_TASKS];
    assert!(rt; read(SHEET, &mut table).is_ok());
    assert!(rt; !read(&SHEET[..53], &mut table).is_ok());
    assert!(rt; table == [Entry::BLANK; SHEET_TASKS]);
}

#[test]
fn whole_sheets(rt: HostRuntime) -> Result<(), Fail> {
    let rows = [
        told_by(b"", 51, 0, 0),
        told_by(b"BLS,1", 51, 0, 0),
        told_by(&SHEET[..53], 51, 0, 0),
        told_by(b"\n", 52, 1, 0),
        told_by(b"BLS,2\n", 52, 1, 0),
        told_by(b"BLS,01\n", 52, 1, 0),
        told_by(b"BLS,1,\n", 52, 1, 0),
        told_by(b"bls,1\n", 52, 1, 0),
        told_by(b"BLS,1\n", 53, 2, 6),
        told_by(b"BLS,1\ncores,2\nunit,10\n", 53, 4, 22),
        told_by(b"BLS,1\ncores,2\n\nframes,6\n", 53, 3, 14),
        told_by(b"BLS,1\ncores,2,2\n", 53, 2, 6),
        told_by(b"BLS,1\ncores\n", 53, 2, 6),
        told_by(b"BLS,1\nunit,2\n", 53, 2, 6),
        told_by(b"BLS,1\ncores,x\nunit\n", 54, 2, 12),
    ];
    check_sheets(&rt, rt.alloc(), b"", &rows, b"")
}

#[test]
fn long_sheets(rt: HostRuntime) {
    let mut long = [b'\n'; LONGEST];
    assert_eq!(rt; told(&long), [52, 1, 0]);
    long[LONGEST - 1] = b'1';
    assert_eq!(rt; told(&long), [51, 0, 0]);
    assert_eq!(rt; told(&[b'\n'; 8193]), [51, 0, 0]);
}

#[test]
fn numbers_of_the_head(rt: HostRuntime) -> Result<(), Fail> {
    let rows = [
        told_by(b"0", 0, 0, 0),
        told_by(b"65535", 0, 0, 0),
        told_by(b"", 54, 2, 12),
        told_by(b"00", 54, 2, 12),
        told_by(b"+1", 54, 2, 12),
        told_by(b"65536", 54, 2, 12),
        told_by(b"123456", 54, 2, 12),
        told_by(b"\xB2", 54, 2, 12),
        told_by(b"1\0", 54, 2, 12),
    ];
    let rest = b"\nunit,10\nframes,6\ntask,A,1,1\n";
    check_sheets(&rt, rt.alloc(), b"BLS,1\ncores,", &rows, rest)
}

#[test]
fn lines_of_tasks(rt: HostRuntime) -> Result<(), Fail> {
    let rows = [
        told_by(b"", 56, 5, 31),
        told_by(b"task,007,1,1\n", 0, 0, 0),
        told_by(b"\n", 53, 5, 31),
        told_by(b"task,A,1\n", 53, 5, 31),
        told_by(b"task,A,1,1,\n", 53, 5, 31),
        told_by(b"Task,a,x,0\n", 53, 5, 31),
        told_by(b"task,a,x,0\n", 54, 5, 36),
        told_by(b"task,ABCDEFGHIJKLM,1,1\n", 54, 5, 36),
        told_by(b"task,A,x,0\n", 54, 5, 38),
        told_by(b"task,A,1,0\n", 54, 5, 40),
        told_by(b"task,A,1,1\ntask,AA,1,1\n", 0, 0, 0),
        told_by(b"task,A,1,1\ntask,A,1,1\nx\n", 55, 6, 47),
        told_by(b"task,A,1,1\ntask,A,1,0\n", 54, 6, 51),
    ];
    check_sheets(&rt, rt.alloc(), &SHEET[..31], &rows, b"")
}

#[test]
fn many_tasks(rt: HostRuntime) -> Result<(), Fail> {
    let mut front = SHEET[..31].to_vec(rt.alloc())?;
    for i in 0..63u8 {
        front.extend_from_slice(b"task,")?;
        front.push(b'0'.wrapping_add(i / 10))?;
        front.push(b'0'.wrapping_add(i % 10))?;
        front.extend_from_slice(b",1,1\n")?;
    }
    let rows = [
        told_by(b"task,63,1,1\n", 0, 0, 0),
        told_by(b"task,00,1,1\n", 55, 68, 792),
        told_by(b"task,63,1,1\ntask,64,1,1\n", 56, 69, 799),
        told_by(b"task,63,1,1\n\n", 56, 69, 799),
    ];
    check_sheets(&rt, rt.alloc(), &front, &rows, b"")
}

#[test]
fn tokens(rt: HostRuntime) -> Result<(), Fail> {
    let mut lexer = Lexer::new(b"task,A1,007,", 0);
    assert!(rt;
        matches!(
            lexer.next_token(),
            Some(Token::Keyword { text: _, place: 0 })
        )
    );
    assert!(rt; matches!(lexer.next_token(), Some(Token::Name { text: _, place: 5 })));
    let Some(third) = lexer.next_token() else {
        return Err(Fail::new("no third token"));
    };
    assert_eq!(rt; third.text(), b"007".as_slice());
    assert_eq!(rt; third.place(), 8);
    assert!(rt;
        matches!(
            lexer.next_token(),
            Some(Token::Number { text: _, place: 12 })
        )
    );
    assert!(rt; lexer.next_token().is_none());
    Ok(())
}

#[test]
fn refused_openings(rt: HostRuntime) {
    assert_eq!(rt;
        numbers(Fault::from(OpeningRefusal::Load(Refusal::BadCores))),
        [1, 2, 0]
    );
    assert_eq!(rt;
        numbers(Fault::from(OpeningRefusal::Load(Refusal::BadUnit))),
        [2, 3, 0]
    );
    assert_eq!(rt; numbers(Fault::from(OpeningRefusal::BadFrames)), [3, 4, 0]);
    assert_eq!(rt;
        numbers(Fault::from(OpeningRefusal::Load(Refusal::BadTaskCount))),
        [4, 0, 0]
    );
    assert_eq!(rt;
        numbers(Fault::from(OpeningRefusal::Load(Refusal::BadRate(63)))),
        [5, 68, 0]
    );
    assert_eq!(rt;
        numbers(Fault::from(OpeningRefusal::Load(Refusal::BadRate(64)))),
        [5, 0, 0]
    );
    assert_eq!(rt;
        numbers(Fault::from(OpeningRefusal::Load(Refusal::Overload))),
        [6, 0, 0]
    );
    assert_eq!(rt;
        Cause::Opening(OpeningRefusal::Load(Refusal::BadRate(7))).task(),
        Some(7)
    );
    assert_eq!(rt; Cause::Field.task(), None);
}
