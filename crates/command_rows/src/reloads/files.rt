// The server, and its two files in memory.
use attr_tuples::is_dom;
use auth_program::{FileTables, MemTables, read_core};
use std::alloc::Global;
use std::sync::Arc;
use wire_base::Text;
use wire_streams::MemSource;

/// Files in memory, and the server by them.
pub(crate) type Tables = FileTables<MemTables<MemSource>>;

fn file(alloc: Global, text: &[u8]) -> anyhow::Result<MemSource> {
    Ok(MemSource::new(text.to_vec(alloc)?, Vec::new(alloc)))
}

/// The domain of the server.
pub(crate) fn domain(alloc: Global) -> anyhow::Result<Text> {
    match Text::from_slice(alloc, b"x")? {
        Some(dom) => Ok(dom),
        None => anyhow::bail!("no domain"),
    }
}

/// A server by these keys, nobody of whom speaks for another, and what the looks to come find in the place of them.
pub(crate) fn server(
    alloc: Global,
    keys: &[u8],
    looks: &[Option<&[u8]>],
) -> anyhow::Result<Tables> {
    let mut plan = Vec::new(alloc);
    for look in looks {
        plan.push(match look {
            Some(text) => Some((file(alloc, text)?, file(alloc, b"")?)),
            None => None,
        })?;
    }
    let (own, dom) = (domain(alloc)?, domain(alloc)?);
    if !is_dom(own.as_slice()) || !is_dom(dom.as_slice()) {
        anyhow::bail!("no domain");
    }
    match read_core(alloc, own, &mut file(alloc, keys)?, &mut file(alloc, b"")?) {
        Ok(core) => Ok(FileTables::new(alloc, dom, Arc::new(alloc, core)?, MemTables::new(plan))),
        Err(_) => anyhow::bail!("bad tables"),
    }
}
