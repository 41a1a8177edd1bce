//! New versions of items: what a command decides of one, its cas number, and how it replaces an item.
ghost use Rattle.std.specs.Prelude.{◌≡◌, ◌<◌, ◌^◌, OnOk, OnErr};
ghost use Rattle.mc_item.specs.Answer as answers;

use crate::answer::Site;
use crate::fault::NoMemory;
use crate::item::{Expiry, Item, Link, Marks};
use crate::value::Value;

/// The parts of a new version that its command decides.
#[derive(Drop)]
pub struct Content<'a> {
    pub flags: u32,
    pub value: &'a Value,
    pub expiry: Expiry,
}

impl Site {
    /// Returns the cas number of the stripe's new version after this many others. It must be below 2^64.
    pub fn cas_of(&self, versions: u64) -> u64
        requires { answers.cas_of self.now versions < 2 ^ 64 }
        ensures { result ≡ answers.cas_of self.now versions }
    {
        versions * u64::from(self.stripes) + u64::from(self.stripe) + 1
    }

    /// Replaces an item by a new version with this content and link, and without marks. Its cas number must be below 2^64. Fails
    /// with `NoMemory` if the value can't be copied: the item is then unchanged.
    #[inline(always)]
    pub fn renew(
        &self,
        versions: u64,
        item: &mut Item,
        content: &Content<'_>,
        link: Link,
    ) -> Result<(), NoMemory>
        requires { answers.cas_of self.now versions < 2 ^ 64 }
        ensures ok { OnOk result (item.new ≡ answers.version_of self.now versions content.now.flags content.now.value.now content.now.expiry link) }
        ensures err { OnErr result (item.new ≡ item.old) }
    {
        let value = content.value.copy()?;
        item.flags = content.flags;
        item.value = value;
        item.expiry = content.expiry;
        item.cas = self.cas_of(versions);
        item.link = link;
        item.marks = Marks {
            fetched: false,
            active: false,
        };
        Ok(())
    }
}
