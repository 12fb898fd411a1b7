//! Paths as values.

ghost use Rattle.std.specs.Prelude.{◌≡◌, ℕ, ◌<◌, ◌^◌, ◌↔◌, List, [], length, All, IsTrue, IfOk, IfSome, IfNone, MatchOption};
ghost use Rattle.std.specs.Option.{option_copied};
ghost use Rattle.zk_path.specs.Paths.{HasNoSlash, IsPath, IsStem, joined, text_of, child_of, parent_of, last_of};
ghost use Rattle.zk_path.specs.Places.{IsBadPathAt, IsBadStemAt};
ghost use Rattle.zk_path.specs.Numbers.{IsStemOf};
ghost use Rattle.zk_path.specs.View.{IsCut, components};

use crate::check::{check_path, check_stem};
use crate::numbers::before_number;
use jute_core::Memory;
use std::alloc::{AllocError, Global};
use std::marker::Model;

/// Why a text is not read as a path or a stem.
#[derive(Clone, Copy, Debug, Drop, PartialEq, Eq)]
pub enum NotPath {
    /// The first illegal component is at this byte of the text.
    BadPath { place: u32 },
    /// There was no memory.
    Memory,
}

impl From<AllocError> for NotPath {
    ghost use Rattle.zk_path.specs.declared.paths.NotPath.TheVariants.{Memory};

    ghost from_gives = { λ _ r. r ≡ Memory };

    fn from(_e: AllocError) -> NotPath {
        NotPath::Memory
    }
}

/// A path or a stem. Contracts see the list of its components, the last one first.
// Each component stands in the text after a slash, so that the root's text here is empty, and the stem `/` has one component.
#[derive(Debug, Drop)]
pub struct Path {
    held: String,
}

impl Model for Path {
    ghost use Rattle.std.specs.Prelude.{◌≡◌, List, ℕ, string_bytes};
    ghost use Rattle.zk_path.specs.Paths.{joined};
    ghost use Rattle.zk_path.specs.View.{components};

    ghost Value = { List (List ℕ) };

    ghost view = { λ p. components (string_bytes p.held) };

    ghost invariant = { λ p. joined (components (string_bytes p.held)) ≡ string_bytes p.held };
}

/// Reads a path. A text is refused exactly at the place that `check_path` gives.
pub fn read_path(alloc: Global, text: &str) -> Result<Path, NotPath>
    requires { length text.now < 2 ^ 32 }
    ensures ok { IfOk result (λ p. IsPath p × (text.now ≡ text_of p)) }
    ensures bad { (place : ℕ) → (result ≡ Err (NotPath.BadPath place)) ↔ IsBadPathAt text.now place }
{
    if let Some(place) = check_path(text) {
        return Err(NotPath::BadPath { place });
    }
    if text == "/" {
        return Ok(Path::root(alloc));
    }
    Ok(Path {
        held: String::from_str(alloc, text)?,
    })
}

/// Reads a stem. A text is refused exactly at the place that `check_stem` gives.
pub fn read_stem(alloc: Global, text: &str) -> Result<Path, NotPath>
    requires { length text.now < 2 ^ 32 }
    ensures ok { IfOk result (λ s. IsStem s × (text.now ≡ joined s)) }
    ensures bad { (place : ℕ) → (result ≡ Err (NotPath.BadPath place)) ↔ IsBadStemAt text.now place }
{
    if let Some(place) = check_stem(text) {
        return Err(NotPath::BadPath { place });
    }
    Ok(Path {
        held: String::from_str(alloc, text)?,
    })
}

impl Path {
    pub fn root(alloc: Global) -> Path
        ensures { result ≡ [] }
    {
        Path {
            held: String::new(alloc),
        }
    }

    /// The text of the path, or of the stem.
    pub fn text(&self) -> &str
        ensures text { result.now ≡ text_of self.now }
        ensures parts { All HasNoSlash self.now }
    {
        if self.held.is_empty() {
            return "/";
        }
        self.held.as_str()
    }

    pub fn is_root(&self) -> bool
        ensures { IsTrue result ↔ (self.now ≡ []) }
    {
        self.held.is_empty()
    }

    pub fn same(&self, other: &Path) -> bool
        ensures { IsTrue result ↔ (self.now ≡ other.now) }
    {
        self.held.as_str() == other.held.as_str()
    }

    // The text that stands before the last component and its slash, and the last component.
    fn cut(&self) -> Option<(&str, &str)>
        ensures { MatchOption result (self.now ≡ []) (λ x. IsCut self.now x.0.now x.1.now) }
    {
        self.held.rsplit_once('/')
    }

    // A component more, after the text of those above it.
    fn under(alloc: Global, above: &str, name: &str) -> Result<Path, Memory>
        requires above { joined (components above.now) ≡ above.now }
        requires name { HasNoSlash name.now }
        ensures { IfOk result (λ path. path ≡ child_of (components above.now) name.now) }
    {
        let mut held = String::with_capacity(alloc, above.len() + 1 + name.len())?;
        held.push_str(above)?;
        held.push('/')?;
        held.push_str(name)?;
        Ok(Path { held })
    }

    /// All but the last component. None exactly for the root.
    pub fn parent(&self) -> Result<Option<Path>, Memory>
        ensures { IfOk result (λ parent. parent ≡ parent_of self.now) }
    {
        let Some((above, _)) = self.cut() else {
            return Ok(None);
        };
        let held = String::from_str(*self.held.allocator(), above)?;
        Ok(Some(Path { held }))
    }

    /// The last component. None exactly for the root.
    pub fn last(&self) -> Option<&str>
        ensures { option_copied result ≡ last_of self.now }
    {
        let (_, name) = self.cut()?;
        Some(name)
    }

    /// This path with one more component.
    pub fn joined(&self, name: &str) -> Result<Path, Memory>
        requires { HasNoSlash name.now }
        ensures { IfOk result (λ path. path ≡ child_of self.now name.now) }
    {
        Path::under(*self.held.allocator(), self.held.as_str(), name)
    }

    /// The stem whose numbered path this is. None exactly where the last component has no ten last ASCII digits.
    pub fn without_number(&self) -> Result<Option<Path>, Memory>
        ensures some { IfOk result (λ stem. IfSome stem (IsStemOf self.now)) }
        ensures none { IfOk result (λ stem. IfNone stem ((s : List (List ℕ)) → IsStemOf self.now s → ⊥)) }
    {
        let Some((above, name)) = self.cut() else {
            return Ok(None);
        };
        match before_number(name) {
            Some(front) => Ok(Some(Path::under(*self.held.allocator(), above, front)?)),
            None => Ok(None),
        }
    }
}
