use super::*;
use std::alloc::Global;
use std::test::Fail;

/// A call of a link at an end, and what it has to answer.
#[derive(Clone, Copy, Debug)]
enum Deed<'a> {
    /// A datagram is sent to this port of the machine itself.
    Sends(usize, u16, &'a [u8]),
    /// A datagram is heard from this port of the machine itself.
    Hears(usize, u16, &'a [u8]),
    /// Nothing is heard.
    Quiet(usize),
}

/// The machine itself, at a port.
fn here(port: u16) -> Peer {
    Peer {
        ip: [127, 0, 0, 1],
        port,
    }
}

/// This is a datagram of these bytes from this port.
fn is_datagram(heard: &Heard, port: u16, want: &[u8]) -> bool {
    match heard {
        Heard::Datagram { from, bytes } => *from == here(port) && bytes.as_slice() == want,
        Heard::Quiet => false,
    }
}

/// The call answers as it has to; a call at an end that isn't open doesn't.
fn answers<L: Link>(link: &mut L, deed: Deed<'_>) -> bool {
    let ends = link.ends();
    match deed {
        Deed::Sends(end, port, bytes) => end < ends && link.send(end, here(port), bytes).is_ok(),
        Deed::Hears(end, port, want) => {
            if end >= ends {
                return false;
            }
            match link.recv(end) {
                Ok(heard) => is_datagram(&heard, port, want),
                Err(_) => false,
            }
        }
        Deed::Quiet(end) => {
            if end >= ends {
                return false;
            }
            matches!(link.recv(end), Ok(Heard::Quiet))
        }
    }
}

#[test]
fn two_ends_of_a_pipe_talk(rt: HostRuntime) -> Result<(), Fail> {
    let mut link = PipeLink::new(rt.alloc());
    assert_eq!(rt; link.open_end(7777), Ok(()));
    assert!(rt; answers(&mut link, Deed::Sends(0, 0, b"too early")));
    assert!(rt; link.ends() == 1);
    assert_eq!(rt; link.open_end(0), Ok(()));
    let table = [
        Deed::Quiet(1),
        Deed::Sends(1, 7777, b"hello"),
        Deed::Sends(1, 7777, b""),
        Deed::Sends(1, 7778, b"elsewhere"),
        Deed::Sends(1, 0, b"to itself"),
        Deed::Quiet(1),
        Deed::Hears(0, 0, b"hello"),
        Deed::Sends(0, 0, b"welcome"),
        Deed::Hears(0, 0, b""),
        Deed::Quiet(0),
        Deed::Sends(0, 7777, b"to itself"),
        Deed::Hears(1, 7777, b"welcome"),
        Deed::Quiet(1),
    ];
    for deed in table {
        assert!(rt; answers(&mut link, deed), "{deed:?}");
    }
    assert_eq!(rt; link.heard(0).len(), 3);
    assert_eq!(rt; link.sent(0).len(), 3);
    assert_eq!(rt; link.heard(1).len(), 4);
    assert_eq!(rt; link.sent(1).len(), 4);
    assert_eq!(rt; link.sent(2).len(), 0);
    Ok(())
}

/// Makes the call of a number: two ends are opened, then the first of them is used. `None` where an
/// end that it needs isn't open, or is already.
fn call(link: &mut MemLink, number: u64) -> Option<Result<(), LinkRefusal>> {
    if number <= 2 {
        if link.ends() >= 2 {
            return None;
        }
        return Some(link.open_end(0));
    }
    if link.ends() == 0 {
        return None;
    }
    if number == 4 {
        return Some(link.send(0, here(1), b"x"));
    }
    match link.recv(0) {
        Ok(_) => Some(Ok(())),
        Err(refusal) => Some(Err(refusal)),
    }
}

/// Of six calls the one of this number fails, and nothing else of it is told.
fn fails_alone(link: &mut MemLink, failing: u64) -> bool {
    for number in 1..7 {
        let want = if number == failing {
            Err(LinkRefusal::Failed)
        } else {
            Ok(())
        };
        if call(link, number) != Some(want) {
            return false;
        }
    }
    let ends = if failing <= 2 { 1 } else { 2 };
    let sent = if failing == 4 { 0 } else { 1 };
    let heard = if failing == 3 || failing > 4 { 2 } else { 3 };
    link.ends() == ends && link.sent(0).len() == sent && link.heard(0).len() == heard
}

#[test]
fn the_call_of_a_number_fails(rt: HostRuntime) -> Result<(), Fail> {
    let alloc = rt.alloc();
    for failing in 1..7 {
        let mut link = MemLink::new(alloc, Vec::new(alloc), vec![in alloc; failing]?);
        assert!(rt; fails_alone(&mut link, failing), "{failing}");
    }
    Ok(())
}

/// So many datagrams of the byte 0.
fn flood(alloc: Global, count: u16) -> Result<HeardList, Memory> {
    let mut script = Items::new(alloc);
    for port in 0..count {
        let bytes = Blob::from_vec(vec![in alloc; 0]?);
        script.push(Heard::Datagram {
            from: here(port),
            bytes,
        })?;
    }
    Ok(script)
}

#[test]
fn a_script_is_heard_to_its_end(rt: HostRuntime) -> Result<(), Fail> {
    let alloc = rt.alloc();
    let scripts = vec![in alloc; flood(alloc, 3000)?]?;
    let mut link = MemLink::new(alloc, scripts, Vec::new(alloc));
    assert_eq!(rt; link.open_end(7777), Ok(()));
    for port in 0..3000 {
        assert!(rt; answers(&mut link, Deed::Hears(0, port, &[0])), "{port}");
    }
    assert!(rt; answers(&mut link, Deed::Quiet(0)));
    assert!(rt; answers(&mut link, Deed::Quiet(0)));
    assert_eq!(rt; link.heard(0).len(), 3002);
    Ok(())
}

#[test]
fn refusals_say_what_is_wrong(rt: HostRuntime) -> Result<(), Fail> {
    let alloc = rt.alloc();
    for (refusal, text) in [
        (LinkRefusal::Failed, "the network failed"),
        (LinkRefusal::Memory, "there was no memory for a datagram"),
    ] {
        assert_eq!(rt; format!(in alloc; "{}", refusal)?.as_str(), text);
    }
    Ok(())
}
