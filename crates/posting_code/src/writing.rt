// Items written as a list.
ghost use Rattle.std.specs.Prelude.{◌≡◌, ◌^◌, ◌<◌, ◌++◌, take, length, OnOk, OnErr};
ghost use Rattle.page_types.specs.Items.{varbyte, item_list, AreItems};

use std::alloc::AllocError;

/// How many bytes a number has as a varbyte.
pub(crate) fn varbyte_size(n: u32) -> usize
    requires { n < 2 ^ 31 }
    ensures { result ≡ length (varbyte n) }
{
    if n < 128 {
        1
    } else if n < 16_384 {
        2
    } else if n < 2_097_152 {
        3
    } else if n < 268_435_456 {
        4
    } else {
        5
    }
}

/// The number as a varbyte. Without memory some of its bytes may be there.
pub(crate) fn put_varbyte(n: u32, out: &mut Vec<u8>) -> Result<(), AllocError>
    requires { n < 2 ^ 31 }
    ensures ok { OnOk result (out.new.items ≡ out.old.items ++ varbyte n) }
    ensures front { take (length out.old.items) out.new.items ≡ out.old.items }
{
    let mut high = n;
    while high >= 128 {
        out.push((high % 128) as u8 + 128)?;
        high /= 128;
    }
    out.push(high as u8)?;
    Ok(())
}

/// The items' list. Without memory some of its bytes may be there.
fn put_items(items: &[u32], out: &mut Vec<u8>) -> Result<(), AllocError>
    requires { AreItems items.now }
    ensures ok { OnOk result (out.new.items ≡ out.old.items ++ item_list items.now) }
    ensures front { take (length out.old.items) out.new.items ≡ out.old.items }
{
    let mut last = 0;
    for item in items {
        put_varbyte(*item - last, out)?;
        last = *item;
    }
    Ok(())
}

/// Appends the list of rising items above 0. Without memory nothing is appended.
pub fn encode_items(items: &[u32], out: &mut Vec<u8>) -> Result<(), AllocError>
    requires { AreItems items.now }
    ensures ok { OnOk result (out.new.items ≡ out.old.items ++ item_list items.now) }
    ensures err { OnErr result (out.new.items ≡ out.old.items) }
{
    let before = out.len();
    match put_items(items, out) {
        Ok(()) => Ok(()),
        Err(e) => {
            out.truncate(before);
            Err(e)
        }
    }
}
