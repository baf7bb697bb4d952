// Laws of trees and of lists of entries, for those who build on trees.
ghost use Rattle.std.specs.Prelude.{◌≡◌, ℕ, List, [], ◌∷◌, ◌++◌, Some, None};
ghost use Rattle.pmem_pages.specs.declared.node.TreeKey.{TreeKey as Key};
ghost use Rattle.pmem_pages.specs.declared.node.Value.{Value as Content};
ghost use Rattle.pmem_pages.specs.Blocks.{Blocks};
ghost use Rattle.pmem_pages.specs.Owners.{SameIn, Holds};
ghost use Rattle.pmem_pages.specs.Owned.{tree_owner};
ghost use Rattle.pmem_pages.specs.Shape.{Entry, Shape, IsTree, Balanced, Rises, root_of, entries, blocks_of, entry_at, first_above, last_under, inserted, removed, valued};
ghost use Rattle.pmem_pages.specs.Parts.{Between, Replaced, above, under, with_value};

/// A new entry goes between two others, and the one at a key stands between two others: what the values
/// lead to is listed in the same order.
pub fn entries_have_places()
    ensures inserted { (x : Entry) (es : List Entry) → entry_at x.key es ≡ None → Between x es (inserted x es) }
    ensures removed { (k : Key) (e : Entry) (es : List Entry) → entry_at k es ≡ Some e → Between e (removed k es) es }
    ensures valued { (k : Key) (v : Content) (e : Entry) (es : List Entry) → entry_at k es ≡ Some e → Replaced e (with_value e v) es (valued k v es) }
{}

/// A walk that goes from each key to the least above it meets the entries in order, and one that goes to
/// the greatest below it meets them from the back.
pub fn walks_meet_all()
    ensures up { (k : Key) (e : Entry) (es : List Entry) → Rises es → first_above k es ≡ Some e → above k es ≡ e ∷ above e.key es }
    ensures up_end { (k : Key) (es : List Entry) → first_above k es ≡ None → above k es ≡ [] }
    ensures down { (k : Key) (e : Entry) (es : List Entry) → Rises es → last_under k es ≡ Some e → under k es ≡ under e.key es ++ e ∷ [] }
    ensures down_end { (k : Key) (es : List Entry) → Rises es → last_under k es ≡ None → under k es ≡ [] }
{}

/// A tree stands wherever its own blocks hold the same, and it is what its owner holds, with a root, balance
/// and order.
pub fn trees_stand_apart()
    ensures frame { (m n : Blocks) (kind root : ℕ) (t : Shape) → SameIn m n (blocks_of (entries t)) → IsTree m kind root t → IsTree n kind root t }
    ensures held { (m : Blocks) (kind root : ℕ) (t : Shape) → IsTree m kind root t → Holds (tree_owner kind) m t }
    ensures again { (m : Blocks) (kind root : ℕ) (t : Shape) → Holds (tree_owner kind) m t → root ≡ root_of t → Balanced t → Rises (entries t) → IsTree m kind root t }
{}
