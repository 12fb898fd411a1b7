//! The first illegal component of a text.

ghost use Rattle.std.specs.Prelude.{◌≡◌, ℕ, ◌<◌, ◌^◌, ◌↔◌, length, Any, IsNone, IsTrue, MatchResult};
ghost use Rattle.std.specs.Str.{chars};
ghost use Rattle.zk_path.specs.Paths.{IsForbidden, HasNoSlash, IsComponent, IsStemEnd, IsPathText, IsStemText};
ghost use Rattle.zk_path.specs.Places.{IsBadWithin, IsBadPathAt, IsBadStemAt, EndsIn};

// Controls, surrogates, private use and specials.
fn is_forbidden(character: char) -> bool
    ensures { IsTrue result ↔ IsForbidden character }
{
    matches!(character as u32, 0..=0x1f | 0x7f..=0x9f | 0xd800..=0xf8ff | 0xfff0..=0xffff)
}

fn has_forbidden(name: &str) -> bool
    ensures { IsTrue result ↔ Any IsForbidden (chars name.now) }
{
    name.chars().any(is_forbidden)
}

fn is_component(name: &str) -> bool
    requires { HasNoSlash name.now }
    ensures { IsTrue result ↔ IsComponent name.now }
{
    match name {
        "" | "." | ".." => false,
        _ => !has_forbidden(name),
    }
}

// A last component of a stem: what is illegal by its length or its dots alone is legal with a digit.
fn is_stem_end(name: &str) -> bool
    requires { HasNoSlash name.now }
    ensures { IsTrue result ↔ IsStemEnd name.now }
{
    !has_forbidden(name)
}

// The last component, not yet judged, where the others are legal; else the place of the first illegal one.
fn last_component(text: &str) -> Result<&str, u32>
    requires { length text.now < 2 ^ 32 }
    ensures { MatchResult result (λ name. EndsIn text.now name.now) (IsBadWithin text.now) }
{
    let Some(mut rest) = text.strip_prefix('/') else {
        return Err(0);
    };
    while let Some((name, after)) = rest.split_once('/') {
        if !is_component(name) {
            return Err((text.len() - rest.len()) as u32);
        }
        rest = after;
    }
    Ok(rest)
}

/// The place of the first illegal component of a path's text: its first byte, or 0 where the text does not begin with a slash.
/// None exactly where the path is legal.
pub fn check_path(text: &str) -> Option<u32>
    requires { length text.now < 2 ^ 32 }
    ensures legal { IsNone result ↔ IsPathText text.now }
    ensures place { (place : ℕ) → (result ≡ Some place) ↔ IsBadPathAt text.now place }
{
    if text == "/" {
        return None;
    }
    match last_component(text) {
        Ok(name) if is_component(name) => None,
        Ok(name) => Some((text.len() - name.len()) as u32),
        Err(place) => Some(place),
    }
}

/// The same of a stem's text, whose last component is judged as if the digit 0 followed.
pub fn check_stem(text: &str) -> Option<u32>
    requires { length text.now < 2 ^ 32 }
    ensures legal { IsNone result ↔ IsStemText text.now }
    ensures place { (place : ℕ) → (result ≡ Some place) ↔ IsBadStemAt text.now place }
{
    match last_component(text) {
        Ok(name) if is_stem_end(name) => None,
        Ok(name) => Some((text.len() - name.len()) as u32),
        Err(place) => Some(place),
    }
}
