//! Lists of arguments.

use dexargs::{Ending, ListFault, arguments_in, list_name};
use std::alloc::Global;

// Returns whether the bytes of a list encode these arguments.
fn are_listed(alloc: Global, ending: Ending, bytes: &str, arguments: &str) -> Option<bool> {
    let listed = arguments_in(alloc, ending, bytes.as_bytes()).ok()?;
    Some(format!(in alloc; "{listed:?}").ok()?.as_str() == arguments)
}

#[test]
fn list_files_denote_their_lines(rt: HostRuntime) {
    for (bytes, arguments) in [
        ("", "[]"),
        ("\n\r\n\n", "[]"),
        ("a.dex", "[\"a.dex\"]"),
        ("a.dex\n", "[\"a.dex\"]"),
        ("b\r\n\r\na\n\nb", "[\"b\", \"a\", \"b\"]"),
        (" a b \n\tc", "[\" a b \", \"\\tc\"]"),
        ("@a\n'b'\n--strip\n", "[\"@a\", \"'b'\", \"--strip\"]"),
        ("a\rb\r\r\n\u{e9}\n", "[\"a\\rb\\r\", \"\u{e9}\"]"),
        ("a\r", "[\"a\\r\"]"),
    ] {
        assert!(rt;
            are_listed(rt.alloc(), Ending::Line, bytes, arguments) == Some(true),
            "{bytes:?}"
        );
    }
}

#[test]
fn list_files_denote_what_is_between_zero_bytes(rt: HostRuntime) {
    for (bytes, arguments) in [
        ("", "[]"),
        ("\0\0", "[]"),
        ("a.dex", "[\"a.dex\"]"),
        ("b\n\0a\r\n\0\0b\0", "[\"b\\n\", \"a\\r\\n\", \"b\"]"),
    ] {
        assert!(rt;
            are_listed(rt.alloc(), Ending::Null, bytes, arguments) == Some(true),
            "{bytes:?}"
        );
    }
}

#[test]
fn lists_that_are_not_text_are_refused(rt: HostRuntime) {
    for (ending, bytes, line) in [
        (Ending::Line, b"a\n\xff", 2),
        (Ending::Line, b"\xc0\x80a", 1),
        (Ending::Line, b"\xed\xa0\x80", 1),
        (Ending::Null, b"\n\0\xff", 2),
    ] {
        let fault = arguments_in(rt.alloc(), ending, bytes).err();
        assert!(rt; fault == Some(ListFault::NotUtf8(line)), "{bytes:?}");
    }
}

#[test]
fn arguments_name_lists(rt: HostRuntime) {
    for (argument, name) in [
        ("@list", Some("list")),
        ("@@list", Some("@list")),
        ("@-", Some("-")),
        ("@./@list", Some("./@list")),
        ("@", None),
        ("", None),
        ("./@list", None),
        ("list", None),
        ("a@b", None),
        ("--out=@list", None),
    ] {
        assert!(rt; list_name(argument) == name, "{argument}");
    }
}
