//! Bytes read and written piece after piece.

use ct_bytes::{ByteFault, Reader, Writer};

/// A number, a field with its length byte, and the end.
fn read_note(bytes: &[u8]) -> Result<u16, ByteFault> {
    let mut reader = Reader::new(bytes);
    let number = reader.take_u16()?;
    let _name = reader.field8()?;
    reader.finish()?;
    Ok(number)
}

#[test]
fn the_first_missing_piece_is_named_by_its_place(rt: HostRuntime) {
    for (bytes, expected) in [
        ("", Err(ByteFault::Short(0))),
        ("\0", Err(ByteFault::Short(0))),
        ("\0\x01", Err(ByteFault::Short(2))),
        ("\0\x01\x02h", Err(ByteFault::Short(3))),
        ("\x01\x02\x02hi", Ok(258)),
        ("\0\x01\x02hi!", Err(ByteFault::Trailing(5))),
    ] {
        assert!(rt; read_note(bytes.as_bytes()) == expected, "{bytes}");
    }
}

/// A number of each size, and whether a mark and the end follow.
fn read_numbers(bytes: &[u8]) -> Result<(u8, u32, u64, bool), ByteFault> {
    let mut reader = Reader::new(bytes);
    let (one, four, eight) = (reader.take_u8()?, reader.take_u32()?, reader.take_u64()?);
    let mark = reader.take(1)?;
    Ok((
        one,
        four,
        eight,
        mark == b"!".as_slice() && reader.place() == bytes.len(),
    ))
}

#[test]
fn numbers_are_read_with_their_high_byte_first(rt: HostRuntime) {
    let read = read_numbers(b"\x07\0\0\x01\0\0\0\0\0\0\0\x02\x01!");
    assert!(rt; read == Ok((7, 256, 513, true)));
}

/// Each kind of piece once.
fn write_pieces(room: &mut [u8]) -> Result<usize, ByteFault> {
    let mut writer = Writer::new(room);
    writer.put_u8(7)?;
    writer.put_u16(258)?;
    writer.put_u32(256)?;
    writer.put_u64(513)?;
    writer.put(b"!")?;
    writer.put_field8(b"hi")?;
    Ok(writer.used())
}

#[test]
fn pieces_are_written_where_there_is_room(rt: HostRuntime) {
    for (size, expected) in [
        (0, Err(ByteFault::TooLong)),
        (18, Err(ByteFault::TooLong)),
        (19, Ok(19)),
        (32, Ok(19)),
    ] {
        let mut room = [9; 32];
        assert!(rt;
            write_pieces(&mut room[..size]) == expected,
            "in {size} bytes"
        );
        let written = b"\x07\x01\x02\0\0\x01\0\0\0\0\0\0\0\x02\x01!\x02hi\x09";
        assert!(rt; size < 32 || &room[..20] == written.as_slice());
    }
}

#[test]
fn a_field_has_at_most_255_bytes(rt: HostRuntime) {
    for (size, expected) in [(255, Ok(())), (256, Err(ByteFault::TooLong))] {
        let mut room = [0; 300];
        let field = [b'x'; 256];
        assert!(rt;
            Writer::new(&mut room).put_field8(&field[..size]) == expected,
            "{size} bytes"
        );
    }
}
