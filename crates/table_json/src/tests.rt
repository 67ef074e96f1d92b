// Worked examples.
use super::*;
use serde_json::Value as Json;
use std::alloc::Global;
use std::test::Fail;

/// The initial value of the property that the text spells.
fn init_in(alloc: Global, text: &str) -> Result<Option<i128>, Memory> {
    match json_of(alloc, text.as_bytes())? {
        None => Ok(None),
        Some(value) => match property_object(&value) {
            None => Ok(None),
            Some(property) => Ok(Some(property.init)),
        },
    }
}

#[test]
fn a_property_has_four_keys_and_a_whole_number(rt: HostRuntime) -> Result<(), Fail> {
    let table = [
        (
            "{\"name\":\"hp\",\"type\":\"u8\",\"cond\":\"none\",\"init\":100}",
            Some(100),
        ),
        (
            " {\"init\":-1,\"cond\":\"\",\"type\":\"\",\"name\":\"\"}\n",
            Some(-1),
        ),
        ("{\"name\":\"hp\",\"type\":\"u8\",\"init\":100}", None),
        (
            "{\"name\":\"hp\",\"type\":\"u8\",\"cond\":\"none\",\"init\":100,\"unit\":\"hp\"}",
            None,
        ),
        (
            "{\"name\":\"hp\",\"type\":\"u8\",\"conds\":\"none\",\"init\":100}",
            None,
        ),
        (
            "{\"name\":\"hp\",\"type\":\"u8\",\"cond\":null,\"init\":100}",
            None,
        ),
        (
            "{\"name\":\"hp\",\"type\":\"u8\",\"cond\":\"none\",\"init\":true}",
            None,
        ),
        (
            "{\"name\":\"hp\",\"type\":\"u8\",\"cond\":\"none\",\"init\":\"1\"}",
            None,
        ),
        (
            "{\"name\":\"hp\",\"type\":\"u8\",\"cond\":\"none\",\"init\":1.0}",
            None,
        ),
        (
            "{\"name\":\"hp\",\"type\":\"u8\",\"cond\":\"none\",\"init\":1e2}",
            None,
        ),
        (
            "{\"name\":\"hp\",\"type\":\"u8\",\"cond\":\"none\",\"init\":-0}",
            None,
        ),
        (
            "{\"name\":\"hp\",\"type\":\"u8\",\"cond\":\"none\",\"init\":01}",
            None,
        ),
        (
            "{\"name\":\"\",\"type\":\"\",\"cond\":\"\",\"init\":18446744073709551615}",
            Some(18_446_744_073_709_551_615),
        ),
        (
            "{\"name\":\"\",\"type\":\"\",\"cond\":\"\",\"init\":18446744073709551616}",
            None,
        ),
        (
            "{\"name\":\"\",\"type\":\"\",\"cond\":\"\",\"init\":-9223372036854775808}",
            Some(-9_223_372_036_854_775_808),
        ),
        (
            "{\"name\":\"\",\"type\":\"\",\"cond\":\"\",\"init\":-9223372036854775809}",
            None,
        ),
        ("[]", None),
        ("", None),
    ];
    for (text, want) in table {
        assert_eq!(rt; init_in(rt.alloc(), text)?, want, "{text}");
    }
    Ok(())
}

/// The arguments of the call that the text spells, each with a space after it.
fn args_in(alloc: Global, text: &str) -> Result<Option<Text>, Memory> {
    let Some(value) = json_of(alloc, text.as_bytes())? else {
        return Ok(None);
    };
    let Some(call) = call_object(&value) else {
        return Ok(None);
    };
    let mut args = String::new(alloc);
    for arg in call.args {
        args.push_str(text_of(arg))?;
        args.push(' ')?;
    }
    Ok(Some(Text::from_string(args)))
}

#[test]
fn a_call_has_arguments_that_are_texts(rt: HostRuntime) -> Result<(), Fail> {
    let table = [
        (
            "{\"name\":\"fire\",\"kind\":\"server\",\"reliable\":true,\"args\":[\"i32\",\"x\"]}",
            Some("i32 x "),
        ),
        (
            "{\"name\":\"fire\",\"kind\":\"server\",\"reliable\":true,\"args\":[]}",
            Some(""),
        ),
        (
            "{\"name\":\"fire\",\"kind\":\"server\",\"reliable\":true,\"args\":[\"i32\",1]}",
            None,
        ),
        (
            "{\"name\":\"fire\",\"kind\":\"server\",\"reliable\":true,\"args\":\"i32\"}",
            None,
        ),
        (
            "{\"name\":\"fire\",\"kind\":\"server\",\"reliable\":1,\"args\":[]}",
            None,
        ),
        (
            "{\"name\":\"fire\",\"kind\":\"server\",\"reliable\":\"true\",\"args\":[]}",
            None,
        ),
        (
            "{\"name\":\"fire\",\"kind\":\"server\",\"reliable\":true}",
            None,
        ),
        (
            "{\"name\":\"fire\",\"kind\":\"server\",\"reliable\":true,\"args\":[],\"to\":1}",
            None,
        ),
        ("null", None),
    ];
    for (text, want) in table {
        let args = args_in(rt.alloc(), text)?;
        assert_eq!(rt; args.as_ref().map(|args| args.as_str()), want, "{text}");
    }
    Ok(())
}

#[test]
fn a_class_has_eight_keys_and_a_parent_or_null(rt: HostRuntime) -> Result<(), Fail> {
    let head = "{\"name\":\"Pawn\",\"path\":\"/Game/Pawn\",\"relevancy\":\"near\",\"cull\":1000,";
    let values = vec![in rt.alloc(); Json::Null]?;
    let calls = values.as_slice();
    let wanted = ClassObject {
        name: "Pawn",
        path: "/Game/Pawn",
        parent: None,
        relevancy: "near",
        cull: 1000,
        priority: 3,
        properties: &calls[1..],
        calls,
    };
    let table = [
        (
            "\"priority\":3,\"parent\":null,\"properties\":[],\"calls\":[null]}",
            Some(wanted),
        ),
        (
            "\"priority\":3,\"parent\":\"\",\"properties\":[],\"calls\":[null]}",
            Some(ClassObject {
                parent: Some(""),
                ..wanted
            }),
        ),
        ("\"priority\":3,\"properties\":[],\"calls\":[null]}", None),
        (
            "\"priority\":3,\"parent\":0,\"properties\":[],\"calls\":[null]}",
            None,
        ),
        (
            "\"priority\":3.0,\"parent\":null,\"properties\":[],\"calls\":[null]}",
            None,
        ),
        (
            "\"priority\":3,\"parent\":null,\"properties\":{},\"calls\":[null]}",
            None,
        ),
        (
            "\"priority\":3,\"parent\":null,\"properties\":[],\"calls\":[null],\"name2\":1}",
            None,
        ),
    ];
    for (rest, want) in table {
        let text = format!(in rt.alloc(); "{head}{rest}")?;
        let value = Json::from_str(rt.alloc(), text.as_str())?;
        assert_eq!(rt; class_object(&value), want, "{rest}");
    }
    Ok(())
}

#[test]
fn a_file_is_an_object_of_classes_alone(rt: HostRuntime) -> Result<(), Fail> {
    let table: [(&[u8], Option<usize>); 8] = [
        (b"{\"classes\":[]}", Some(0)),
        (b"{\"classes\":[1,null,{}]}", Some(3)),
        (b"{\"classes\":{}}", None),
        (b"{\"classes\":[],\"version\":1}", None),
        (b"{}", None),
        (b"[]", None),
        (b"{\"classes\":[]", None),
        (b"{\"classes\":[\"\xff\"]}", None),
    ];
    for (bytes, want) in table {
        let value = json_of(rt.alloc(), bytes)?;
        let count = match &value {
            None => None,
            Some(top) => classes_of(top).map(|classes| classes.len()),
        };
        assert_eq!(rt; count, want);
    }
    Ok(())
}

#[test]
fn a_type_is_plain_or_has_a_number_in_range(rt: HostRuntime) -> Result<(), Fail> {
    let table = [
        ("bool", false, Ok(Kind::Bool)),
        ("u8", false, Ok(Kind::U8)),
        ("i32", false, Ok(Kind::I32)),
        ("u32", true, Ok(Kind::U32)),
        ("i64", false, Ok(Kind::I64)),
        ("packed", true, Ok(Kind::Packed)),
        ("guid", false, Ok(Kind::Guid)),
        ("u16", false, Err(TableWhy::BadType)),
        ("U8", false, Err(TableWhy::BadType)),
        ("", false, Err(TableWhy::BadType)),
        ("enum:4", false, Ok(Kind::Enum(4))),
        ("enum:2", true, Ok(Kind::Enum(2))),
        ("enum:65535", false, Ok(Kind::Enum(65_535))),
        ("enum:1", false, Err(TableWhy::Range)),
        ("enum:0", false, Err(TableWhy::Range)),
        ("enum:65536", false, Err(TableWhy::Range)),
        ("enum:4294967300", false, Err(TableWhy::Range)),
        ("enum:99999999999999999999999", false, Err(TableWhy::Range)),
        ("enum:03", false, Err(TableWhy::BadType)),
        ("enum:", false, Err(TableWhy::BadType)),
        ("enum", false, Err(TableWhy::BadType)),
        ("enum:+3", false, Err(TableWhy::BadType)),
        ("enum:-3", false, Err(TableWhy::BadType)),
        ("enum: 3", false, Err(TableWhy::BadType)),
        ("enum:3 ", false, Err(TableWhy::BadType)),
        ("bytes:2048", true, Ok(Kind::Bytes(2048))),
        ("bytes:1", true, Ok(Kind::Bytes(1))),
        ("bytes:2049", true, Err(TableWhy::Range)),
        ("bytes:0", true, Err(TableWhy::Range)),
        ("bytes:2048", false, Err(TableWhy::BadType)),
        ("bytes:0", false, Err(TableWhy::BadType)),
        ("bytes:x", true, Err(TableWhy::BadType)),
    ];
    for (text, argument, want) in table {
        assert_eq!(rt; type_of(text, argument), want, "{text}");
    }
    Ok(())
}

#[test]
fn a_name_has_31_bytes_and_begins_with_a_letter(rt: HostRuntime) -> Result<(), Fail> {
    let table = [
        ("a", true),
        ("Z_9", true),
        ("abcdefghijklmnopqrstuvwxyz_1234", true),
        ("abcdefghijklmnopqrstuvwxyz_12345", false),
        ("", false),
        ("_x", false),
        ("9a", false),
        ("a-b", false),
        ("a b", false),
        ("d\u{e9}j\u{e0}", false),
    ];
    for (text, want) in table {
        assert_eq!(rt; is_name(text), want, "{text}");
    }
    Ok(())
}

/// The names of the path with a space after each.
fn names_of(alloc: Global, path: &str) -> Result<Option<Text>, Memory> {
    let Some(names) = path_of(alloc, path)? else {
        return Ok(None);
    };
    let mut text = String::new(alloc);
    for name in names.as_slice() {
        text.push_str(name.as_str())?;
        text.push(' ')?;
    }
    Ok(Some(Text::from_string(text)))
}

#[test]
fn a_path_has_1_to_8_names(rt: HostRuntime) -> Result<(), Fail> {
    let table = [
        ("/Game/Pawn", Some("Game Pawn ")),
        ("/a", Some("a ")),
        ("/a/b/c/d/e/f/g/h", Some("a b c d e f g h ")),
        ("/a/b/c/d/e/f/g/h/i", None),
        ("", None),
        ("/", None),
        ("a", None),
        ("a/b", None),
        ("//a", None),
        ("/a/", None),
        ("/a//b", None),
        ("/a/_b", None),
        ("/a/\u{e9}", None),
        ("/abcdefghijklmnopqrstuvwxyz_12345", None),
    ];
    for (path, want) in table {
        let names = names_of(rt.alloc(), path)?;
        assert_eq!(rt; names.as_ref().map(|names| names.as_str()), want, "{path}");
    }
    Ok(())
}

#[test]
fn conditions_and_ways_have_words(rt: HostRuntime) -> Result<(), Fail> {
    let conditions = [
        ("none", Some(Cond::Always)),
        ("initial", Some(Cond::InitialOnly)),
        ("owner", Some(Cond::OwnerOnly)),
        ("skip", Some(Cond::SkipOwner)),
        ("initialowner", Some(Cond::InitialOrOwner)),
        ("custom", Some(Cond::Custom)),
        ("always", None),
        ("initial ", None),
        ("", None),
    ];
    for (text, want) in conditions {
        assert_eq!(rt; condition_of(text), want, "{text}");
    }
    let ways = [
        ("server", Some(Way::Server)),
        ("client", Some(Way::Client)),
        ("multicast", Some(Way::Multicast)),
        ("Server", None),
        ("", None),
    ];
    for (text, want) in ways {
        assert_eq!(rt; way_of(text), want, "{text}");
    }
    Ok(())
}

#[test]
fn a_near_class_alone_has_a_cull_distance(rt: HostRuntime) -> Result<(), Fail> {
    let table = [
        ("always", 0, Ok(Reach::Always)),
        ("owner", 0, Ok(Reach::Owner)),
        ("near", 1, Ok(Reach::Near(1))),
        ("near", 50_000, Ok(Reach::Near(50_000))),
        ("near", 0, Err(TableWhy::Range)),
        ("near", 50_001, Err(TableWhy::Range)),
        ("near", -1, Err(TableWhy::Range)),
        ("near", 4_294_967_297, Err(TableWhy::Range)),
        ("always", 1, Err(TableWhy::Range)),
        ("owner", -1, Err(TableWhy::Range)),
        ("far", 0, Err(TableWhy::BadType)),
        ("", 70_000, Err(TableWhy::BadType)),
    ];
    for (relevancy, cull, want) in table {
        assert_eq!(rt; reach_of(relevancy, cull), want, "{relevancy} {cull}");
    }
    Ok(())
}
