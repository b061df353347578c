// Sheets by example: where each fault is told, and where a name is found.
use crate::lookup::find;
use crate::records::Told;

fn told(sheet: &[u8]) -> Option<Told> {
    find(sheet, b"").err().map(Told::from)
}

fn fault(number: u8, layer: u8, place: usize) -> Option<Told> {
    Some(Told {
        number,
        layer,
        place,
    })
}

#[test]
fn sheets(rt: HostRuntime) {
    assert_eq!(rt; told(b""), None);
    assert_eq!(rt;
        told(b"\x01\x05\xac\x02\x00\x02ab\x02\x00\x02\x01\xff"),
        None
    );
    // Numbers.
    assert_eq!(rt; told(b"\x01"), fault(1, 1, 1));
    assert_eq!(rt; told(b"\x01\x05\x80"), fault(1, 1, 2));
    assert_eq!(rt; told(b"\x01\x05\x80\x00"), fault(2, 1, 2));
    assert_eq!(rt; told(b"\x01\x81\x00"), fault(2, 1, 1));
    assert_eq!(rt; told(b"\x02\x80\x80\x80\x80"), fault(2, 1, 1));
    // Records.
    assert_eq!(rt; told(b"\x02\x00\x03"), fault(3, 2, 2));
    assert_eq!(rt; told(b"\x01\x05\x06\x07\x00"), fault(4, 2, 4));
    assert_eq!(rt; told(b"\x01\x05\x06\x07\x0d"), fault(4, 2, 4));
    assert_eq!(rt; told(b"\x01\x05\x06\x07\x03a b"), fault(4, 2, 6));
    assert_eq!(rt; told(b"\x01\x05\x06\x07\x0ca\x7f"), fault(4, 2, 6));
    assert_eq!(rt; told(b"\x01\x05\x06\x07\x03ab"), fault(1, 2, 4));
    assert_eq!(rt; told(b"\x02\x51"), fault(4, 2, 1));
    assert_eq!(rt; told(b"\x02\x03ab"), fault(1, 2, 1));
    // Names: the first of two, none in a note, and none before a fault.
    assert!(rt;
        find(
            b"\x02\x02ab\x01\x05\x06\x07\x02ab\x01\x05\x06\x07\x02ab",
            b"ab",
        ) == Ok(Some(9))
    );
    assert!(rt; find(b"\x02\x02ab", b"ab") == Ok(None));
    assert!(rt; find(b"\x01\x05\x06\x07\x02ab\x04", b"ab").is_err());
}
