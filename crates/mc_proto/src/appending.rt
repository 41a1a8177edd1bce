//! Appends bytes to a text, whole or not at all.
ghost use Rattle.std.specs.Prelude.{◌≡◌, ◌++◌, OnOk, OnErr};
ghost use Rattle.std.specs.List.{flat_map};

use mc_item::NoMemory;

/// Appends all parts of a text, or nothing if memory is refused.
pub(crate) fn push_parts(out: &mut Vec<u8>, parts: &[&[u8]]) -> Result<(), NoMemory>
    ensures ok { OnOk result (out.new.items ≡ out.old.items ++ flat_map (λ part. part.now) parts.now) }
    ensures err { OnErr result (out.new.items ≡ out.old.items) }
{
    let before = out.len();
    for part in parts {
        match out.extend_from_slice(*part) {
            Ok(()) => {}
            Err(_) => {
                out.truncate(before);
                return Err(NoMemory);
            }
        }
    }
    Ok(())
}

/// Appends a text whole or not at all. Inlined, since a text of a known length is then a few stores.
#[inline(always)]
pub(crate) fn push_text(out: &mut Vec<u8>, text: &[u8]) -> Result<(), NoMemory>
    ensures ok { OnOk result (out.new.items ≡ out.old.items ++ text.now) }
    ensures err { OnErr result (out.new.items ≡ out.old.items) }
{
    out.extend_from_slice(text)?;
    Ok(())
}

/// Makes room for `n` more bytes. If the text has to move, only its bytes are copied, and not its unused room.
#[inline(always)]
pub(crate) fn make_room(out: &mut Vec<u8>, n: usize) -> Result<(), NoMemory>
    ensures { out.new.items ≡ out.old.items }
{
    let len = out.len();
    if out.capacity() - len >= n {
        return Ok(());
    }
    let mut larger = Vec::with_capacity(*out.allocator(), len.saturating_add(n.max(len)))?;
    larger.extend_from_slice(out.as_slice())?;
    *out = larger;
    Ok(())
}
