//! What clients do beside a server, and whether all of it was so.

use crate::loops::site::Site;
use crate::loops::wire::{brings, closes, says, sends};
use std::net::{Net, TcpStream};
use std::rt::Clock;
use std::sync::Wait;
use std::time::Duration;

/// One joins a room while its GET waits, and so hears the other.
pub fn polling<R: Net<Stream = TcpStream> + Clock + Wait>(site: &Site<'_, R>) -> bool {
    let (Some(one), Some(other)) = (site.open(), site.open()) else {
        return false;
    };
    let (one, other) = (one.as_str(), other.as_str());
    let joining = site.wait(one);
    let is_in = site.posts(one, r#"421["join","r"]"#) && site.hears(joining, "431[]");
    let hearing = site.wait(one);
    is_in
        && site.posts(other, r#"42["say","r","hi"]"#)
        && site.hears(hearing, r#"42["say","r","hi","0000000000000001"]"#)
}

/// A second GET closes the client. The app fails when it hears of this, and still the first GET is
/// told so at once.
pub fn closing<R: Net<Stream = TcpStream> + Clock + Wait>(site: &Site<'_, R>) -> bool {
    let Some(id) = site.open() else {
        return false;
    };
    let Some(first) = site.wait(id.as_str()) else {
        return false;
    };
    // Sooner than it gives up.
    let is_bounded = first.set_read_timeout(Some(Duration::from_secs(10)));
    let _second = site.get(id.as_str());
    is_bounded.is_ok() && site.hears(Some(first), "1")
}

/// One speaks from the first, the other comes over while a GET of it waits.
pub fn speaking<R: Net<Stream = TcpStream> + Clock + Wait>(site: &Site<'_, R>) -> bool {
    let Some(one) = site.speak() else {
        return false;
    };
    let is_in = says(site.alloc, &one, r#"421["join","r"]"#) && site.told(&one, "431[]");
    let Some(id) = site.open() else {
        return false;
    };
    match site.come_over(id.as_str()) {
        Some(other) => is_in && speak_both(site, &one, &other),
        None => false,
    }
}

/// The other says bytes to the room, and then the one says something to all.
fn speak_both<R: Net<Stream = TcpStream> + Clock + Wait>(
    site: &Site<'_, R>,
    one: &TcpStream,
    other: &TcpStream,
) -> bool {
    let alloc = site.alloc;
    says(
        alloc,
        other,
        r#"451-["say","r",{"_placeholder":true,"num":0}]"#,
    ) && sends(other, b"\x82\x83\0\0\0\0\x01\0\xff")
        && site.told(
            one,
            r#"451-["say","r",{"_placeholder":true,"num":0},"0000000000000001"]"#,
        )
        && brings(alloc, one, b"\x82\x03\x01\0\xff")
        && says(alloc, one, r#"42["all","hi"]"#)
        && site.told(one, r#"42["all","hi","0000000000000002"]"#)
        && site.told(other, r#"42["all","hi","0000000000000002"]"#)
        && closes(alloc, one)
        && closes(alloc, other)
}
