// Worked examples.
use super::*;
use sha1::Sha1;
use std::alloc::Global;
use std::test::Fail;

fn digest(alloc: Global, ticks: u64) -> Result<String, Memory> {
    let script = sample_script(alloc, ticks)?;
    let digest = Sha1::digest(script.as_bytes());
    Ok(hex::encode(alloc, digest.as_slice())?)
}

// The digests are those of another program's scripts.
#[test]
fn scripts_have_their_digests(rt: HostRuntime) -> Result<(), Fail> {
    let cases = [
        (0, "58500e4c688e017d724e5c6894dc74a29585bcea"),
        (1, "06759e3b96acb13ef454900f0960a48e61841e02"),
        (25, "7d722bd0e05400701170f1a9e3dc881f70cf4449"),
        (50, "6e1c4328c4fa950acd397570d5bc29687a91564e"),
        (600, "2fd960cb276c58ab0396b872bb5f596d617471c6"),
    ];
    for (ticks, wanted) in cases {
        let told = digest(rt.alloc(), ticks)?;
        assert_eq!(rt; told.as_str(), wanted, "{ticks}");
    }
    Ok(())
}

#[test]
fn a_script_begins_with_joins_and_spawns(rt: HostRuntime) -> Result<(), Fail> {
    let script = sample_script(rt.alloc(), 1)?;
    let first = "join 1 20000\njoin 2 20000\njoin 3 20000\njoin 4 20000\njoin 5 20000\n\
        join 6 20000\njoin 7 20000\njoin 8 20000\nspawn Purse 1867 -700\nown 1 1\n\
        spawn Pawn 1926 351\nown 2 2\n";
    assert!(rt; script.starts_with(first));
    Ok(())
}
