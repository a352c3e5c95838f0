//! Numbers and text in a buffer.
use codec::numbers::{Counted, Number, NumberFault, number_at};
use codec::pieces::{Piece, Text};
use codec::text::Line;

#[test]
fn numbers_read(rt: HostRuntime) {
    assert_eq!(rt; number_at(&[0xAC, 0x02], 0), Ok((300, 2)));
    assert_eq!(rt; number_at(&[0x05, 0x7F, 0x00], 1), Ok((127, 2)));
    assert_eq!(rt;
        number_at(&[0x80, 0x00], 0),
        Err(NumberFault::NotFewestAt(0))
    );
    assert_eq!(rt;
        number_at(&[0x01, 0xAC, 0x80], 1),
        Err(NumberFault::CutShortAt(3))
    );
    assert_eq!(rt; number_at(&[0x01], 7), Err(NumberFault::CutShortAt(1)));
    // 2^64 - 1 is the largest; 2^64 is too large, and one too large already can still be cut short
    let mut file = [0xFF; 12];
    file[9] = 0x01;
    assert_eq!(rt; number_at(&file, 0), Ok((u64::MAX, 10)));
    file[9] = 0x02;
    assert_eq!(rt; number_at(&file, 0), Err(NumberFault::NotFewestAt(0)));
    file[9] = 0xFF;
    assert_eq!(rt; number_at(&file, 0), Err(NumberFault::CutShortAt(12)));
    file[11] = 0x00;
    assert_eq!(rt; number_at(&file, 0), Err(NumberFault::NotFewestAt(0)));
}

#[test]
fn pieces_written(rt: HostRuntime) {
    let mut buffer = [0xEE; 5];
    assert_eq!(rt; Number(300).write(&mut buffer, 1), Some(3));
    assert_eq!(rt; buffer, [0xEE, 0xAC, 0x02, 0xEE, 0xEE]);
    assert_eq!(rt; Number(300).write(&mut buffer, 4), None);
    assert_eq!(rt; Counted(&[1, 128]).write(&mut buffer, 2), None);
    assert_eq!(rt; Counted(&[1, 128]).write(&mut buffer, 1), Some(5));
    assert_eq!(rt; buffer, [0xEE, 0x02, 0x01, 0x80, 0x01]);
    assert_eq!(rt; Number(u64::MAX).width(), 10);
    let mut text = [b'-'; 14];
    let line = Line(Text(b"fault"), &[2, 10, 0]);
    assert_eq!(rt; line.write(&mut text, 1), Some(14));
    assert_eq!(rt; text, *b"-fault 2 10 0\n");
    assert_eq!(rt; line.write(&mut text, 2), None);
}
