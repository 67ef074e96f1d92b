// Class tables: the built-in one, good ones at their limits, and which rule a bad one breaks first.
use class_layout::{Class, Classes, Guid, TableRefusal, Text, TextList};
use std::alloc::{AllocError, Global};
use std::test::Fail;

/// The keys of a good class, of a good property and of a good call.
const CLASS: &str =
    "\"name\":\"A\",\"path\":\"/A\",\"parent\":null,\"relevancy\":\"always\",\"cull\":0,\"priority\":1,\"properties\":[],\"calls\":[]";

const PROPERTY: &str = "\"name\":\"p\",\"type\":\"u8\",\"cond\":\"none\",\"init\":0";

const CALL: &str = "\"name\":\"f\",\"kind\":\"server\",\"reliable\":true,\"args\":[]";

/// Writes a piece of a file: `@`, `#` and `$` stand for the keys of a good class, property and call,
/// `'` for a quotation mark, and `%` for the number. Keys that follow good ones take their place,
/// since the last of two equal keys counts.
fn push_piece(file: &mut String, piece: &str, number: &str) -> Result<(), AllocError> {
    for c in piece.chars() {
        match c {
            '@' => file.push_str(CLASS)?,
            '#' => file.push_str(PROPERTY)?,
            '$' => file.push_str(CALL)?,
            '%' => file.push_str(number)?,
            '\'' => file.push('"')?,
            _ => file.push(c)?,
        }
    }
    Ok(())
}

/// The file whose classes are these pieces, the middle one so many times.
fn file_of(alloc: Global, pieces: [&str; 3], times: usize) -> Result<String, AllocError> {
    let [first, middle, last] = pieces;
    let mut file = String::from_str(alloc, "{\"classes\":[")?;
    push_piece(&mut file, first, "")?;
    for i in 0..times {
        let number = format!(in alloc; "{i}")?;
        push_piece(&mut file, middle, number.as_str())?;
    }
    push_piece(&mut file, last, "")?;
    file.push_str("]}")?;
    Ok(file)
}

/// How many classes the file has, or the first rule that it breaks, and where.
fn outcome(alloc: Global, file: &[u8]) -> Result<String, AllocError> {
    match Classes::read(alloc, file) {
        Ok(table) => format!(in alloc; "classes {}", table.count()),
        Err(TableRefusal::Memory) => Err(AllocError),
        Err(refusal) => {
            let message = format!(in alloc; "{refusal}")?;
            match message.as_str().strip_prefix("class table refused at ") {
                Some(rule) => String::from_str(alloc, rule),
                None => Ok(message),
            }
        }
    }
}

#[test]
fn the_built_in_table_has_pawn_flag_and_purse(rt: HostRuntime) -> Result<(), Fail> {
    let table = Classes::builtin(rt.alloc())?;
    assert_eq!(rt; table.count(), 3);
    assert_eq!(rt;
        table.digest(),
        [
            0xfd, 0xa1, 0x16, 0x7c, 0x93, 0x70, 0x8d, 0xa3, 0x63, 0xb0, 0xce, 0xd8, 0xc3, 0x09,
            0xb0, 0x08, 0xd5, 0x9c, 0x6b, 0x16,
        ]
    );
    // Handles are three more than properties, for x, y and the role: 7, 5 and 4.
    for (place, name, props, calls) in [(0, "Pawn", 4, 4), (1, "Flag", 2, 0), (2, "Purse", 1, 0)] {
        let class = table.class(place).ok_or("class")?;
        assert_eq!(rt; class.name.as_str(), name);
        assert_eq!(rt; class.props.len(), props);
        assert_eq!(rt; class.calls.len(), calls);
        assert_eq!(rt; table.find(name), Some(place));
    }
    assert_eq!(rt; table.class(3).is_none(), true);
    assert_eq!(rt; table.find("Game"), None);
    Ok(())
}

#[test]
fn the_built_in_paths_have_guids(rt: HostRuntime) -> Result<(), Fail> {
    let alloc = rt.alloc();
    let table = Classes::builtin(alloc)?;
    let mut path = TextList::new(alloc);
    path.push(Text::from_str(alloc, "Game")?)?;
    assert_eq!(rt; table.by_path(&path), None);
    for (guid, outer, name, place) in [
        (3, 0, "Game", None),
        (5, 3, "Pawn", Some(0)),
        (7, 3, "Flag", Some(1)),
        (9, 3, "Purse", Some(2)),
    ] {
        let segment = table.segment(Guid(guid)).ok_or("segment")?;
        assert_eq!(rt; segment.outer, Guid(outer));
        assert_eq!(rt; segment.name.as_str(), name);
        let mut path = TextList::new(alloc);
        path.push(Text::from_str(alloc, "Game")?)?;
        path.push(Text::from_str(alloc, name)?)?;
        assert_eq!(rt; table.by_path(&path), place);
    }
    for guid in [0, 1, 2, 4, 6, 11, u32::MAX] {
        assert_eq!(rt; table.segment(Guid(guid)).is_none(), true, "{guid}");
    }
    Ok(())
}

/// Whole files, each with the rule of the table that it breaks.
const TOPS: &str = " -> table: Json
null -> table: Shape
{} -> table: Shape
[] -> table: Shape
{'classes':null} -> table: Shape
{'classes':[{@}],'more':1} -> table: Shape
{'classes':[{@}] -> table: Json
{'classes':[{@}]}{} -> table: Json
{'classes':[]} -> table: Range";

/// The first row whose file isn't answered as it says.
fn wrong_file(alloc: Global, rows: &str) -> Result<Option<&str>, Fail> {
    for row in rows.lines() {
        let (text, want) = row.split_once(" -> ").ok_or("row")?;
        let mut file = String::new(alloc);
        push_piece(&mut file, text, "")?;
        let got = outcome(alloc, file.as_bytes())?;
        if got.as_str() != want {
            return Ok(Some(row));
        }
    }
    Ok(None)
}

#[test]
fn a_file_without_classes_is_refused_at_the_table(rt: HostRuntime) -> Result<(), Fail> {
    assert_eq!(rt; wrong_file(rt.alloc(), TOPS)?, None);
    Ok(())
}

/// Classes of which one breaks a rule, each with the place and the rule.
const BAD: &str = "1 -> class 1: Shape
{@,'more':1} -> class 1: Shape
{@,'parent':0} -> class 1: Shape
{@,'cull':1.0} -> class 1: Shape
{@,'priority':-0} -> class 1: Shape
{@,'calls':{}} -> class 1: Shape
{@,'name':'9'} -> class 1: Name
{@,'path':'A'} -> class 1: Name
{@,'path':'/a/b/c/d/e/f/g/h/i'} -> class 1: Name
{@},{@,'path':'/B'} -> class 2: Twice
{@},{@,'name':'B'} -> class 2: Twice
{@,'parent':'A'} -> class 1: Parent
{@,'parent':'B'},{@,'name':'B','path':'/B'} -> class 1: Parent
{@,'relevancy':'far'} -> class 1: BadType
{@,'cull':1} -> class 1: Range
{@,'relevancy':'near'} -> class 1: Range
{@,'relevancy':'near','cull':50001} -> class 1: Range
{@,'priority':0} -> class 1: Range
{@,'priority':256} -> class 1: Range
{@,'properties':[1]} -> class 1 property 1: Shape
{@,'properties':[{#,'more':1}]} -> class 1 property 1: Shape
{@,'properties':[{#,'init':1e2}]} -> class 1 property 1: Shape
{@,'properties':[{#,'name':'_p'}]} -> class 1 property 1: Name
{@,'properties':[{#},{#}]} -> class 1 property 2: Twice
{@,'properties':[{#,'name':'x'}]} -> class 1 property 1: Twice
{@,'properties':[{#,'name':'y'}]} -> class 1 property 1: Twice
{@,'properties':[{#,'name':'role'}]} -> class 1 property 1: Twice
{@,'properties':[{#}]},{@,'name':'B','path':'/B','parent':'A','properties':[{#}]} -> class 2 property 1: Twice
{@,'properties':[{#,'type':'u16'}]} -> class 1 property 1: BadType
{@,'properties':[{#,'type':'bytes:1'}]} -> class 1 property 1: BadType
{@,'properties':[{#,'cond':'all'}]} -> class 1 property 1: BadType
{@,'properties':[{#,'type':'enum:1'}]} -> class 1 property 1: Range
{@,'properties':[{#,'init':256}]} -> class 1 property 1: Range
{@,'properties':[{#,'type':'enum:4','init':4}]} -> class 1 property 1: Range
{@,'calls':[1]} -> class 1 call 1: Shape
{@,'calls':[{$,'reliable':1}]} -> class 1 call 1: Shape
{@,'calls':[{$,'args':[1]}]} -> class 1 call 1: Shape
{@,'calls':[{$,'name':'f-'}]} -> class 1 call 1: Name
{@,'calls':[{$},{$}]} -> class 1 call 2: Twice
{@,'calls':[{$}]},{@,'name':'B','path':'/B','parent':'A','calls':[{$}]} -> class 2 call 1: Twice
{@,'calls':[{$,'kind':'peer'}]} -> class 1 call 1: BadType
{@,'calls':[{$,'args':['u8','u16']}]} -> class 1 call 1: BadType
{@,'calls':[{$,'args':['bytes:0']}]} -> class 1 call 1: Range
{@,'calls':[{$,'args':['bytes:862'],'reliable':false}]} -> class 1 call 1: TooBig";

/// Classes that break two rules, each with the first of them: classes are looked at in the file's
/// order, but the keys of an object in one order of their own.
const BAD_TWICE: &str = "{@,'name':'9','more':1} -> class 1: Shape
{@},{@,'path':''} -> class 2: Twice
{@},{@,'name':'B','parent':'Z'} -> class 2: Twice
{@,'path':'','parent':'Z'} -> class 1: Name
{@,'parent':'Z','relevancy':'far'} -> class 1: Parent
{@,'relevancy':'far','cull':1} -> class 1: BadType
{@,'cull':1,'properties':[1]} -> class 1: Range
{@,'priority':0,'properties':[1]} -> class 1: Range
{@,'properties':[{#},{#}],'calls':[1]} -> class 1 property 2: Twice
{@,'properties':[{#,'init':-1},1]} -> class 1 property 1: Range
{@,'calls':[1]},1 -> class 1 call 1: Shape
{'calls':[1],'properties':[1],'priority':1,'cull':0,'relevancy':'always','parent':null,'path':'/A','name':'A'} -> class 1 property 1: Shape
{@,'properties':[{'init':-1,'cond':'','type':'u8','name':'p'}]} -> class 1 property 1: BadType
{@,'properties':[{#,'name':'x','init':1.0}]} -> class 1 property 1: Shape
{@,'properties':[{#,'name':'x','type':''}]} -> class 1 property 1: Twice
{@,'properties':[{#,'name':'x','init':-1}]} -> class 1 property 1: Twice
{@,'properties':[{#,'type':'enum:1','cond':''}]} -> class 1 property 1: Range
{@,'calls':[{$,'name':'','args':[1]}]} -> class 1 call 1: Shape
{@,'calls':[{$},{$,'kind':''}]} -> class 1 call 2: Twice
{@,'calls':[{$,'kind':'','args':['bytes:0']}]} -> class 1 call 1: BadType
{@,'calls':[{$,'args':['enum:1','zz']}]} -> class 1 call 1: Range
{@,'calls':[{$,'args':['zz','enum:1']}]} -> class 1 call 1: BadType";

/// The first row whose classes aren't answered as it says.
fn wrong_row(alloc: Global, rows: &str) -> Result<Option<&str>, Fail> {
    for row in rows.lines() {
        let (classes, want) = row.split_once(" -> ").ok_or("row")?;
        let file = file_of(alloc, [classes, "", ""], 0)?;
        let got = outcome(alloc, file.as_bytes())?;
        if got.as_str() != want {
            return Ok(Some(row));
        }
    }
    Ok(None)
}

#[test]
fn a_broken_rule_is_told_with_its_place(rt: HostRuntime) -> Result<(), Fail> {
    assert_eq!(rt; wrong_row(rt.alloc(), BAD)?, None);
    Ok(())
}

#[test]
fn of_two_broken_rules_the_first_is_told(rt: HostRuntime) -> Result<(), Fail> {
    assert_eq!(rt; wrong_row(rt.alloc(), BAD_TWICE)?, None);
    Ok(())
}

/// Classes at a limit or over it, in three pieces of which the middle one stands so many times.
const LIMITS: [([&str; 3], usize, &str); 21] = [
    (
        ["", "{@,'name':'A%','path':'/P/A%'},", "{@}"],
        255,
        "classes 256",
    ),
    (
        ["", "{@,'name':'A%','path':'/P/A%'},", "1"],
        256,
        "table: Range",
    ),
    (
        ["{@,'properties':[", "{#,'name':'p%'},", "{#}]}"],
        196,
        "classes 1",
    ),
    (
        ["{@,'properties':[", "{#,'name':'p%'},", "{#}]},1"],
        197,
        "class 1: TooMany",
    ),
    (
        ["{@,'properties':[", "{#,'name':'p%'},", "{#}],'calls':[1]}"],
        197,
        "class 1 call 1: Shape",
    ),
    (
        [
            "{@,'properties':[",
            "{#,'name':'p%'},",
            "{#}]},{@,'name':'B','path':'/B','parent':'A'}",
        ],
        196,
        "classes 2",
    ),
    (
        [
            "{@,'properties':[",
            "{#,'name':'p%'},",
            "{#}]},{@,'name':'B','path':'/B','parent':'A','properties':[{#,'name':'q'}]}",
        ],
        196,
        "class 2: TooMany",
    ),
    (
        ["{@,'calls':[", "{$,'name':'f%'},", "{$}]}"],
        63,
        "classes 1",
    ),
    (
        ["{@,'calls':[", "{$,'name':'f%'},", "{$}]}"],
        64,
        "class 1: TooMany",
    ),
    (
        [
            "{@,'calls':[",
            "{$,'name':'f%'},",
            "{$}]},{@,'name':'B','path':'/B','parent':'A','calls':[{$,'name':'g'}]}",
        ],
        63,
        "class 2: TooMany",
    ),
    (
        [
            "",
            "{@,'name':'A%','path':'/a%/b/c/d/e/f/g/h'},",
            "{@,'path':'/a0/b'}",
        ],
        128,
        "classes 129",
    ),
    (
        [
            "",
            "{@,'name':'A%','path':'/a%/b/c/d/e/f/g/h'},",
            "{@,'path':'/a0/c'}",
        ],
        128,
        "class 129: TooMany",
    ),
    (
        [
            "",
            "{@,'name':'A%','path':'/a%/b/c/d/e/f/g/h'},",
            "{@,'path':'/a0/c','calls':[1]}",
        ],
        128,
        "class 129 call 1: Shape",
    ),
    (
        ["{@,'calls':[{$,'args':[", "'u8',", "'u8']}]}"],
        15,
        "classes 1",
    ),
    (
        ["{@,'calls':[{$,'args':[", "'u8',", "'u8']}]}"],
        16,
        "class 1 call 1: Range",
    ),
    (
        ["{@,'calls':[{$,'args':[", "'u8',", "'zz']}]}"],
        16,
        "class 1 call 1: BadType",
    ),
    (
        ["{@,'calls':[{$,'args':[", "'bytes:2048',", "'u8']}]}"],
        16,
        "class 1 call 1: Range",
    ),
    (
        [
            "{@,'calls':[{$,'reliable':false,'args':[",
            "'bool',",
            "'bytes:861']}]}",
        ],
        2,
        "classes 1",
    ),
    (
        [
            "{@,'calls':[{$,'reliable':false,'args':[",
            "'bool',",
            "'bytes:861']}]}",
        ],
        3,
        "class 1 call 1: TooBig",
    ),
    (
        [
            "{@,'calls':[{$,'args':['bytes:1349','u8',",
            "'bytes:2048',",
            "'bool']}]}",
        ],
        3,
        "classes 1",
    ),
    (
        [
            "{@,'calls':[{$,'args':['bytes:1349','u8','bool',",
            "'bytes:2048',",
            "'bool']}]}",
        ],
        3,
        "class 1 call 1: TooBig",
    ),
];

#[test]
fn limits_are_exact(rt: HostRuntime) -> Result<(), Fail> {
    for (pieces, times, want) in LIMITS {
        let file = file_of(rt.alloc(), pieces, times)?;
        let got = outcome(rt.alloc(), file.as_bytes())?;
        assert_eq!(rt; got.as_str(), want);
    }
    Ok(())
}

/// A class, a class of it and a class of that one, each with a property and a call.
const FAMILY: &str =
    "{@,'properties':[{#,'name':'a'}],'calls':[{$,'name':'f'}]},{@,'name':'B','path':'/B','parent':'A','properties':[{#,'name':'b'}],'calls':[{$,'name':'g'}]},{@,'name':'C','path':'/C','parent':'B','properties':[{#,'name':'c'}],'calls':[{$,'name':'h'}]}";

/// The names of the class's properties and then of its calls.
fn names_in(alloc: Global, class: &Class) -> Result<String, AllocError> {
    let mut names = String::new(alloc);
    for prop in class.props.as_slice() {
        names.push_str(prop.name.as_str())?;
    }
    for call in class.calls.as_slice() {
        names.push_str(call.name.as_str())?;
    }
    Ok(names)
}

#[test]
fn inherited_properties_and_calls_stand_first(rt: HostRuntime) -> Result<(), Fail> {
    let file = file_of(rt.alloc(), [FAMILY, "", ""], 0)?;
    let table = Classes::read(rt.alloc(), file.as_bytes())?;
    for (place, parent, want) in [
        (0, None, "af"),
        (1, Some(0), "abfg"),
        (2, Some(1), "abcfgh"),
    ] {
        let class = table.class(place).ok_or("class")?;
        assert_eq!(rt; class.parent, parent);
        let names = names_in(rt.alloc(), class)?;
        assert_eq!(rt; names.as_str(), want);
    }
    Ok(())
}
