// Worked tables.
use super::*;
use class_layout::TableRefusal;
use std::alloc::Global;
use std::test::Fail;

/// What a file's table comes to, or why it is refused.
fn checked(alloc: Global, file: &str) -> Result<String, Memory> {
    match Classes::read(alloc, file.as_bytes()) {
        Ok(classes) => check_text(alloc, &classes),
        Err(TableRefusal::BadTable { place, why }) => refused_text(alloc, place, why),
        Err(TableRefusal::Memory) => Err(Memory),
    }
}

#[test]
fn the_built_in_table_has_its_summary(rt: HostRuntime) -> Result<(), Fail> {
    let alloc = rt.alloc();
    let classes = Classes::builtin(alloc)?;
    let text = check_text(alloc, &classes)?;
    assert_eq!(rt;
        text.as_str(),
        "classes 3\nclass Pawn handles 7 calls 4\n\
        class Flag handles 5 calls 0\nclass Purse handles 4 calls 0\n\
        digest fda1167c93708da363b0ced8c309b008d59c6b16\n"
    );
    Ok(())
}

#[test]
fn refusals_name_their_place(rt: HostRuntime) -> Result<(), Fail> {
    let alloc = rt.alloc();
    for (file, text) in [
        ("", "unet: class table refused at table: Json\n"),
        ("{}", "unet: class table refused at table: Shape\n"),
        (
            "{\"classes\":[]}",
            "unet: class table refused at table: Range\n",
        ),
        (
            "{\"classes\":[{}]}",
            "unet: class table refused at class 1: Shape\n",
        ),
    ] {
        let got = checked(alloc, file)?;
        assert_eq!(rt; got.as_str(), text, "{file}");
    }
    Ok(())
}
