//! Lists by key. A key that has no items has no list.

ghost use Rattle.std.specs.Prelude.{◌≡◌, ◌++◌, ◌∷◌, [], OnOk, OnErr, if◌then◌else◌};
ghost use Rattle.std.specs.Ordering.{eq_by_cmp};
ghost use Rattle.row_locks.specs.Lists.{items_at, items_in, all_but_last, IsLists};

use hops_base::NoMemory;
use std::alloc::Global;
use std::collections::BTreeMap;

/// The items of a key.
pub fn items_at<'a, K: Ord, T>(lists: &'a BTreeMap<K, Vec<T>>, key: &K) -> &'a [T]
    ensures { result.now ≡ items_at K.cmp lists.now key.now }
{
    match lists.get(key) {
        Some(items) => items,
        None => &[],
    }
}

/// Adds an item to those of a key. Want of memory changes nothing.
pub fn add_at<K: Ord + Drop, T: Drop>(
    alloc: Global,
    lists: &mut BTreeMap<K, Vec<T>>,
    key: K,
    item: T,
) -> Result<(), NoMemory>
    requires { IsLists K.cmp lists.old }
    ensures lists { IsLists K.cmp lists.new }
    ensures ok { OnOk result ((q : K) → items_at K.cmp lists.new q
        ≡ (if eq_by_cmp K.cmp key q then items_at K.cmp lists.old q ++ item ∷ [] else items_at K.cmp lists.old q)) }
    ensures err { OnErr result ((q : K) → items_at K.cmp lists.new q ≡ items_at K.cmp lists.old q) }
{
    match lists.get_mut(&key) {
        Some(items) => items.push(item)?,
        None => {
            let mut items = Vec::new(alloc);
            items.push(item)?;
            lists.insert(key, items)?;
        }
    }
    Ok(())
}

/// Takes away the last item of a key.
pub fn drop_last_at<K: Ord + Drop, T: Drop>(lists: &mut BTreeMap<K, Vec<T>>, key: &K)
    requires { IsLists K.cmp lists.old }
    ensures lists { IsLists K.cmp lists.new }
    ensures items { (q : K) → items_at K.cmp lists.new q
        ≡ (if eq_by_cmp K.cmp key.now q then all_but_last (items_at K.cmp lists.old q) else items_at K.cmp lists.old q) }
{
    let Some(items) = lists.get_mut(key) else {
        return;
    };
    let _ = items.pop();
    if items.is_empty() {
        let _ = lists.remove(key);
    }
}

/// Takes away all items of a key, and gives them out. None where there are none.
pub fn take_at<K: Ord + Drop, T>(lists: &mut BTreeMap<K, Vec<T>>, key: &K) -> Option<Vec<T>>
    requires { IsLists K.cmp lists.old }
    ensures lists { IsLists K.cmp lists.new }
    ensures taken { items_in result ≡ items_at K.cmp lists.old key.now }
    ensures items { (q : K) → items_at K.cmp lists.new q
        ≡ (if eq_by_cmp K.cmp key.now q then [] else items_at K.cmp lists.old q) }
{
    lists.remove(key)
}
