//! Lists, texts and tables: the printed form of a text, and that each call succeeds.

use comp_lists::{Keyed, Seq, SharedBytes, Text, TryClone};
use std::alloc::{AllocError, Global};
use std::collections::HashMap;

#[test]
fn a_text_is_displayed_in_quotes(rt: HostRuntime) {
    let text = Text::from_str(rt.alloc(), "a\"b\\c\n\u{7f}é").expect(&rt, "memory");
    let shown = format!(in rt.alloc(); "{text}").expect(&rt, "memory");
    assert_eq!(rt; shown.as_str(), "\"a\\\"b\\\\c\\0a\\7fé\"");
}

#[test]
fn a_list_grows_at_its_end(rt: HostRuntime) {
    let alloc = rt.alloc();
    let mut list: Seq<u32> = Seq::new(alloc);
    assert!(rt; list.is_empty());
    list.push(7).expect(&rt, "memory");
    let mut more: Seq<u32> = Seq::new(alloc);
    more.push(8).expect(&rt, "memory");
    list.append(more).expect(&rt, "memory");
    let copy = list.clone(alloc).expect(&rt, "memory");
    assert!(rt; copy == list);
    assert_eq!(rt; list.len(), 2);
    let items = list.into_vec();
    assert_eq!(rt; items.as_slice(), [7, 8].as_slice());
    assert_eq!(rt; Seq::from_vec(items).as_slice(), [7, 8].as_slice());
}

/// The bytes of an owner, after another was dropped.
fn left_to_an_owner(alloc: Global) -> Result<SharedBytes, AllocError> {
    let first = SharedBytes::from_vec(Vec::from_slice(alloc, b"abc")?)?;
    let second = first.share()?;
    if first != second || first.is_empty() || first.len() != 3 {
        return SharedBytes::from_vec(Vec::new(alloc));
    }
    drop(first);
    Ok(second)
}

#[test]
fn bytes_are_shared(rt: HostRuntime) {
    let bytes = left_to_an_owner(rt.alloc()).expect(&rt, "memory");
    assert_eq!(rt; bytes.as_slice(), b"abc".as_slice());
}

/// What a map finds at an equal text.
fn found_by_copy(alloc: Global, name: Text) -> Result<Option<u32>, AllocError> {
    let mut indices: HashMap<Text, u32> = HashMap::new(alloc);
    let copy = Some(name.clone(alloc)?).try_clone(alloc)?;
    indices.insert(name, 3)?;
    match copy {
        Some(text) => Ok(indices.get(&text).map(|index| *index)),
        None => Ok(None),
    }
}

#[test]
fn texts_are_keys(rt: HostRuntime) {
    let alloc = rt.alloc();
    let name = Text::from_string(String::from_str(alloc, "f").expect(&rt, "memory"));
    assert!(rt; name.as_str() == "f" && name.len() == 1 && !name.is_empty());
    assert_eq!(rt; found_by_copy(alloc, name).expect(&rt, "memory"), Some(3));
    assert!(rt; Text::new(alloc).into_string().is_empty());
}

/// The values of a table in its order, after an entry was kept and one was added at its end.
fn kept_in_order(alloc: Global) -> Result<Seq<u32>, AllocError> {
    let mut table: Keyed<Text, u32> = Keyed::new(alloc);
    table.insert_if_absent(Text::from_str(alloc, "b")?, 1)?;
    table.insert_if_absent(Text::from_str(alloc, "b")?, 2)?;
    table.insert_if_absent(Text::from_str(alloc, "a")?, 3)?;
    let mut values = Seq::new(alloc);
    if table.contains_key(&Text::from_str(alloc, "c")?) {
        return Ok(values);
    }
    for (_, value) in table.iter() {
        values.push(*value)?;
    }
    Ok(values)
}

#[test]
fn tables_keep_their_order(rt: HostRuntime) {
    let values = kept_in_order(rt.alloc()).expect(&rt, "memory");
    assert_eq!(rt; values.as_slice(), [1, 3].as_slice());
}

/// The values at `a` and at `b` in a table that had three entries, after that of `b` was removed.
fn left_in_table(alloc: Global) -> Result<(Option<u32>, Option<u32>), AllocError> {
    let mut table: Keyed<Text, u32> = Keyed::new(alloc);
    let b = Text::from_str(alloc, "b")?;
    table.insert_if_absent(b.clone(alloc)?, 1)?;
    table.insert_if_absent(Text::from_str(alloc, "c")?, 2)?;
    let a = Text::from_str(alloc, "a")?;
    table.insert_if_absent(a.clone(alloc)?, 3)?;
    table.remove(&b);
    Ok((table.get(&a).copied(), table.get(&b).copied()))
}

#[test]
fn an_entry_is_removed(rt: HostRuntime) {
    let left = left_in_table(rt.alloc()).expect(&rt, "memory");
    assert!(rt; left == (Some(3), None));
}

/// The values of a table in its order, after that of its first key was set again.
fn set_in_place(alloc: Global) -> Result<Seq<u32>, AllocError> {
    let mut table: Keyed<Text, u32> = Keyed::new(alloc);
    table.set(Text::from_str(alloc, "b")?, 1)?;
    table.set(Text::from_str(alloc, "a")?, 2)?;
    table.set(Text::from_str(alloc, "b")?, 3)?;
    let mut values = Seq::new(alloc);
    for (_, value) in table.iter() {
        values.push(*value)?;
    }
    Ok(values)
}

#[test]
fn a_value_is_set_in_its_place(rt: HostRuntime) {
    let values = set_in_place(rt.alloc()).expect(&rt, "memory");
    assert_eq!(rt; values.as_slice(), [3, 2].as_slice());
}
