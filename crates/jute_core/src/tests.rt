//! Spellings and refusals as the encoding's description has them, worked by hand.

use crate::{
    Bytes, Cursor, NotRead, Reason, Refusal, Text, Texts, put_bool, put_buffer, put_bytes,
    put_count, put_int, put_long, put_texts, put_ustring, read_bytes, read_text, read_texts,
};
use std::test::Fail;

#[derive(Clone, Copy)]
enum Kind {
    Int,
    Long,
    Boolean,
    Buffer,
    Count,
    Ustring,
    End,
}

fn read(kind: Kind, cursor: &mut Cursor<'_>) -> Result<(), Refusal> {
    match kind {
        Kind::Int => {
            cursor.int()?;
        }
        Kind::Long => {
            cursor.long()?;
        }
        Kind::Boolean => {
            cursor.boolean()?;
        }
        Kind::Buffer => {
            cursor.buffer()?;
        }
        Kind::Count => {
            cursor.count()?;
        }
        Kind::Ustring => {
            cursor.ustring()?;
        }
        Kind::End => cursor.end()?,
    }
    Ok(())
}

// A boolean stands before each field, so that places are told from lengths.
#[test]
fn refuses_at_the_place_of_the_field(rt: HostRuntime) {
    let table: [(Kind, &[u8], u32, Reason); 17] = [
        (Kind::Int, b"\x01", 1, Reason::Short),
        (Kind::Int, b"\x01\0\0\0", 1, Reason::Short),
        (Kind::Long, b"\x01\0\0\0\0\0\0\0", 1, Reason::Short),
        (Kind::Boolean, b"\x01", 1, Reason::Short),
        (Kind::Boolean, b"\x01\x02", 1, Reason::BadBool),
        (Kind::Boolean, b"\x01\xff", 1, Reason::BadBool),
        (Kind::Buffer, b"\x01\0\0\0", 1, Reason::Short),
        (Kind::Buffer, b"\x01\0\0\0\x03ab", 5, Reason::Short),
        (Kind::Buffer, b"\x01\xff\xff\xff\xfe", 1, Reason::BadLength),
        (Kind::Count, b"\x01\0\0", 1, Reason::Short),
        (Kind::Count, b"\x01\x80\0\0\0", 1, Reason::BadLength),
        (Kind::Ustring, b"\x01\0\0\0", 1, Reason::Short),
        (Kind::Ustring, b"\x01\0\0\0\x01", 5, Reason::Short),
        (Kind::Ustring, b"\x01\xff\xff\xff\xff", 1, Reason::BadLength),
        (Kind::Ustring, b"\x01\xff\xff\xff\xfe", 1, Reason::BadLength),
        (Kind::Ustring, b"\x01\0\0\0\x02a\xff", 5, Reason::BadUtf8),
        (Kind::End, b"\x01\0\0", 1, Reason::Trailing),
    ];
    for (kind, bytes, place, reason) in table {
        assert!(rt; bytes.len() < 100);
        let mut cursor = Cursor::new(bytes);
        assert_eq!(rt; cursor.boolean(), Ok(true));
        assert_eq!(rt;
            read(kind, &mut cursor),
            Err(Refusal { place, reason }),
            "{bytes:?}"
        );
        assert_eq!(rt; cursor.place(), 1, "{bytes:?}");
    }
}

#[test]
fn writes_the_one_spelling_of_each_type(rt: HostRuntime) -> Result<(), Fail> {
    let mut into = Vec::new(rt.alloc());
    put_int(&mut into, -2)?;
    put_long(&mut into, 0x0102_0304_0506_0708)?;
    put_bool(&mut into, true)?;
    put_bool(&mut into, false)?;
    put_count(&mut into, None)?;
    put_count(&mut into, Some(258))?;
    put_buffer(&mut into, None)?;
    put_buffer(&mut into, Some(b""))?;
    put_bytes(&mut into, &Some(Bytes::copy_of(rt.alloc(), b"ab")?))?;
    put_ustring(&mut into, "/\u{e9}")?;
    let want: &[u8] =
        b"\xff\xff\xff\xfe\x01\x02\x03\x04\x05\x06\x07\x08\x01\0\xff\xff\xff\xff\0\0\x01\x02\
        \xff\xff\xff\xff\0\0\0\0\0\0\0\x02ab\0\0\0\x03/\xc3\xa9";
    assert_eq!(rt; into.as_slice(), want);
    Ok(())
}

#[test]
fn reads_the_fields_of_a_record(rt: HostRuntime) -> Result<(), Fail> {
    let mut cursor = Cursor::new(b"\x80\0\0\0\xff\xff\xff\xff\xff\xff\xff\xff\0\xff\xff\xff\xff");
    assert_eq!(rt; cursor.int()?, i32::MIN);
    assert_eq!(rt; cursor.long()?, -1);
    assert!(rt; !cursor.boolean()?);
    assert_eq!(rt; cursor.count()?, None);
    cursor.end()?;
    Ok(())
}

#[test]
fn owns_the_buffers_and_texts_that_it_reads(rt: HostRuntime) -> Result<(), Fail> {
    let mut cursor = Cursor::new(b"\0\0\0\x02ab\0\0\0\x01/");
    let bytes = read_bytes(rt.alloc(), &mut cursor)?;
    let text = read_text(rt.alloc(), &mut cursor)?;
    assert!(rt; bytes.is_some_and(|b| b.as_slice() == b"ab".as_slice()));
    assert_eq!(rt; text.as_str(), "/");
    Ok(())
}

#[test]
fn lends_the_items_of_a_list(rt: HostRuntime) -> Result<(), Fail> {
    let text = Text::copy_of(rt.alloc(), "ab")?;
    assert_eq!(rt; text.len(), 2);
    assert_eq!(rt; text.get(1), Some(&b'b'));
    let mut items = Vec::new(rt.alloc());
    items.push(text)?;
    let texts = Texts::of(items);
    assert_eq!(rt; texts.len(), 1);
    assert!(rt; texts.get(0).is_some_and(|t| t.as_str() == "ab"));
    assert!(rt; texts.get(1).is_none());
    Ok(())
}

#[test]
fn a_list_of_texts_is_read_and_written_back(rt: HostRuntime) -> Result<(), Fail> {
    let table: [&[u8]; 3] = [
        b"\xff\xff\xff\xff",
        b"\0\0\0\0",
        b"\0\0\0\x02\0\0\0\x02/a\0\0\0\0",
    ];
    for (index, body) in table.iter().enumerate() {
        assert!(rt; body.len() < 100);
        let mut cursor = Cursor::new(body);
        let texts = read_texts(rt.alloc(), &mut cursor)?;
        cursor.end()?;
        assert_eq!(rt; texts.is_none(), index == 0);
        let mut items = Vec::new(rt.alloc());
        if index == 2 {
            items.push(Text::copy_of(rt.alloc(), "/a")?)?;
            items.push(Text::copy_of(rt.alloc(), "")?)?;
        }
        let list = if index == 0 {
            None
        } else {
            Some(Texts::of(items))
        };
        let mut into = Vec::new(rt.alloc());
        put_texts(&mut into, &list)?;
        assert_eq!(rt; into.as_slice(), *body);
    }
    Ok(())
}

// It has no memory for two thousand million texts, and needs none.
#[test]
fn a_count_takes_no_memory(rt: HostRuntime) {
    let mut cursor = Cursor::new(b"\x7f\xff\xff\xff\0\0\0");
    let refusal = Refusal {
        place: 4,
        reason: Reason::Short,
    };
    let texts = read_texts(rt.alloc(), &mut cursor);
    assert_eq!(rt; texts.err(), Some(NotRead::Refused(refusal)));
    assert_eq!(rt; cursor.place(), 0);
}
