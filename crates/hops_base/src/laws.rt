//! Laws of the order of keys, and of the texts of paths: a path of names and its text tell the same.

ghost use Rattle.std.specs.Prelude.{◌≡◌, List, ℕ, true, None};
ghost use Rattle.std.specs.Cmp.{IsTotalOrder};
ghost use Rattle.std.specs.declared.cmp.Ordering.TheVariants.{Equal};
ghost use Rattle.hops_base.specs.declared.key.Key.{Key};
ghost use Rattle.hops_base.specs.Key.{key_cmp};
ghost use Rattle.std.specs.List.{list_all};
ghost use Rattle.std.specs.Str.{is_utf8};
ghost use Rattle.hops_base.specs.Name.{is_name};
ghost use Rattle.hops_base.specs.Path.{text_of, names_in, free_fault, path_fault, is_short};

/// Keys have one total order, in which keys that compare alike are one.
pub fn keys_have_one_order()
    ensures total { IsTotalOrder key_cmp }
    ensures exact { (a b : Key) → key_cmp a b ≡ Equal → a ≡ b }
{}

/// The text of a path of names has these names in it and no fault, and where the path is short enough for a
/// call, none at all. It is UTF-8.
pub fn a_path_is_told_by_its_text()
    ensures names { (path : List (List ℕ)) → list_all is_name path ≡ true → names_in (text_of path) ≡ path }
    ensures free { (path : List (List ℕ)) → list_all is_name path ≡ true → free_fault (text_of path) ≡ None }
    ensures short { (path : List (List ℕ)) → list_all is_name path ≡ true → is_short path ≡ true
        → path_fault (text_of path) ≡ None }
    ensures text { (path : List (List ℕ)) → list_all is_name path ≡ true → is_utf8 (text_of path) ≡ true }
{}

/// A text of UTF-8 without a fault is that of a path of names, which is short enough for a call where the
/// text has no fault as a call's.
pub fn a_text_without_fault_tells_a_path()
    ensures names { (text : List ℕ) → is_utf8 text ≡ true → free_fault text ≡ None
        → list_all is_name (names_in text) ≡ true }
    ensures text { (text : List ℕ) → free_fault text ≡ None → text_of (names_in text) ≡ text }
    ensures short { (text : List ℕ) → path_fault text ≡ None → is_short (names_in text) ≡ true }
    ensures free { (text : List ℕ) → path_fault text ≡ None → free_fault text ≡ None }
{}
