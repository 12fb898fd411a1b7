//! The texts of paths, cut.

ghost use Rattle.std.specs.Prelude.{◌≡◌, ℕ, List, ◌∷◌};
ghost use Rattle.zk_path.specs.Paths.{IsStem, joined, text_of, IsTextOf};
ghost use Rattle.tree_state.specs.Nodes.{Path};

// The text of the path above, and the last component, of a path that is not the root, or of a stem.
pub(crate) fn parts(path: &str) -> (&str, &str)
    ensures path { (n : List ℕ) (p : Path) → IsTextOf path.now (n ∷ p) → (result.0.now ≡ text_of p) × (result.1.now ≡ n) }
    ensures stem { (n : List ℕ) (p : Path) → IsStem (n ∷ p) → path.now ≡ joined (n ∷ p) → (result.0.now ≡ text_of p) × (result.1.now ≡ n) }
{
    let Some((parent, name)) = path.rsplit_once('/') else {
        return ("/", path);
    };
    if parent.is_empty() {
        return ("/", name);
    }
    (parent, name)
}
