use go_chars::{is_digit, is_exported, is_letter, is_name};
use std::test::Fail;

#[test]
fn letters_and_digits_by_category(rt: HostRuntime) {
    for (c, letter, digit) in [
        ('_', true, false),
        ('A', true, false),
        ('z', true, false),
        ('0', false, true),
        ('9', false, true),
        ('@', false, false),
        ('\u{E9}', true, false),
        ('\u{1C5}', true, false),
        ('\u{2B0}', true, false),
        ('\u{4E16}', true, false),
        ('\u{661}', false, true),
        ('\u{2167}', false, false),
        ('\u{B2}', false, false),
        ('\u{301}', false, false),
        ('\u{10FFFF}', false, false),
    ] {
        assert!(rt; is_letter(c) == letter, "{c:?} as a letter");
        assert!(rt; is_digit(c) == digit, "{c:?} as a digit");
    }
}

#[test]
fn names_and_exported_names(rt: HostRuntime) {
    for (text, name, exported) in [
        ("", false, false),
        ("_", true, false),
        ("x9", true, false),
        ("9x", false, false),
        ("Go", true, true),
        ("go", false, false),
        ("fallthrough", false, false),
        ("falltrough", true, false),
        ("a b", false, false),
        ("\u{E9}t\u{E9}", true, false),
        ("\u{C9}t\u{E9}", true, true),
        ("\u{661}x", false, false),
        ("x\u{661}", true, false),
        ("x\u{2167}", false, false),
        ("\u{1C5}x", true, false),
    ] {
        assert!(rt; is_name(text) == name, "{text:?} as a name");
        assert!(rt;
            is_exported(text) == exported,
            "{text:?} as an exported name"
        );
    }
}
