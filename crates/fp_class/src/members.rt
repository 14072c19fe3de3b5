//! The fields and methods of a class file (JVMS SE 21 sections 4.5 and 4.6).
ghost use Rattle.std.specs.Prelude.{◌≡◌, ◌+◌, ◌++◌, ◌^◌, ◌<◌, [], ◌∷◌, codes, if◌then◌else◌, is_some, length, true, Bool, List, ℕ, IfOk, IfSome, IsTrue};
ghost use Rattle.std.specs.List.{list_all};
ghost use Rattle.std.specs.BTreeSet.{contains};
ghost use Rattle.fp_model.specs.declared.raw.pool.Entry.{Entry};
ghost use Rattle.fp_model.specs.declared.raw.RawMember.{RawMember};
ghost use Rattle.fp_model.specs.Descriptor.{is_field_descriptor};
ghost use Rattle.fp_model.specs.Entries.{passes, text_at};
ghost use Rattle.fp_model.specs.Flags.{is_static};
ghost use Rattle.fp_model.specs.Reading.{Gives, counted_at, many_at};
ghost use Rattle.fp_model.specs.References.{tagged, text_checked};
ghost use Rattle.fp_attr.specs.Attributes.{attribute_at, is_called};
ghost use Rattle.fp_class.specs.declared.numbers.Key.{Key};
ghost use Rattle.fp_class.specs.Keys.{found_key, has_key, has_texts, key_cmp};
ghost use Rattle.fp_class.specs.Members as members;
ghost use Rattle.fp_class.specs.Members.{counted_after, field_at, is_new, is_type_of, many_after, method_at, name_at};
ghost use Rattle.fp_class.specs.Texts.{IsTexts};

use crate::numbers::Key;
use crate::texts::{Texts, is_field_type, parameter_words};
use fp_attr::{Owner, read_attr};
use fp_model::flags::{is_static, lacks_code};
use fp_model::look_up::{UTF8, tag, text};
use fp_model::reading::{behind, u16_at, u32_at};
use fp_model::{Entry, FileFault, Pool, RawAttr, RawMember};
use sqlite_items::Items;
use std::alloc::{AllocError, Global};
use std::collections::BTreeSet;

/// The most words that the arguments of a method take.
const MOST_WORDS: u32 = 255;

/// Checks that an index, which stands at an offset, is that of a text.
fn check_text(entries: &[Entry], at: u32, index: u16) -> Result<(), FileFault>
    ensures { Gives result (tagged entries.now 1 at index) }
{
    if tag(entries, index) == UTF8 {
        Ok(())
    } else {
        Err(FileFault::Index { at, index })
    }
}

/// Checks an index of a text, which stands at an offset, of which it is known whether it is a descriptor of the sort.
#[tactic(auto, unfolding(fp_model::specs::References::text_checked), using(crate::proofs::Sorts::sorted))]
fn check_type(entries: &[Entry], at: u32, index: u16, passed: bool) -> Result<(), FileFault>
    ensures { (test : List ℕ → Bool) → passed ≡ passes test (text_at entries.now index)
        → Gives result (text_checked entries.now test at index) }
{
    check_text(entries, at, index)?;
    if passed {
        Ok(())
    } else {
        Err(FileFault::Descriptor { at })
    }
}

/// The name and the descriptor at two indexes, by the numbers of their texts, where both are texts.
fn key_at(entries: &[Entry], texts: &Texts, name: u16, descr: u16) -> Option<Key>
    requires { IsTexts entries.now texts.now }
    ensures { result ≡ found_key entries.now texts.now.numbers.items name descr }
{
    if tag(entries, name) != UTF8 || tag(entries, descr) != UTF8 {
        return None;
    }
    Some(Key {
        name: texts.numbers[name as usize],
        descr: texts.numbers[descr as usize],
    })
}

/// Whether no member before has the name and the descriptor at two indexes, which are kept as seen.
fn see_member(
    entries: &[Entry],
    texts: &Texts,
    before: &[RawMember],
    seen: &mut BTreeSet<Key>,
    name: u16,
    descr: u16,
) -> Result<bool, AllocError>
    requires texts { IsTexts entries.now texts.now }
    requires before { IsTrue (list_all (has_texts entries.now) before.now) }
    requires seen { (key : Key) → contains key_cmp seen.old key ≡ has_key texts.now.numbers.items before.now key }
    ensures new { IfOk result (λ new. new ≡ is_new entries.now before.now name descr) }
    ensures seen { IfOk result (λ new. (member : RawMember) → (key : Key) → new ≡ true → member.name ≡ name → member.descr ≡ descr
        → has_texts entries.now member ≡ true
        → contains key_cmp seen.new key ≡ has_key texts.now.numbers.items (before.now ++ member ∷ []) key) }
{
    match key_at(entries, texts, name, descr) {
        Some(key) => Ok(seen.insert(key)?),
        None => Ok(true),
    }
}

/// How many attributes of an owner there are, and each of them.
#[tactic(auto, unfolding(fp_model::specs::Reading::counted_at))]
fn attributes(
    alloc: Global,
    bytes: &[u8],
    at: u32,
    pool: &Pool,
    owner: Owner,
) -> Result<(Items<RawAttr>, u32), FileFault>
    requires { length bytes.now < 2 ^ 32 }
    ensures { Gives result (counted_at (attribute_at pool.now.entries owner bytes.now) bytes.now at) }
{
    let (count, next) = u16_at(bytes, at)?;
    many_attributes(alloc, bytes, next, pool, owner, count)
}

fn many_attributes(
    alloc: Global,
    bytes: &[u8],
    at: u32,
    pool: &Pool,
    owner: Owner,
    count: u16,
) -> Result<(Items<RawAttr>, u32), FileFault>
    requires { length bytes.now < 2 ^ 32 }
    ensures { Gives result (many_at (attribute_at pool.now.entries owner bytes.now) count [] at) }
{
    let mut attributes = Vec::new(alloc);
    let mut next = at;
    for _left in 0..count {
        let (attribute, end) = read_attr(alloc, bytes, next, pool, owner)?;
        attributes.push(attribute)?;
        next = end;
    }
    Ok((Items::from_vec(attributes), next))
}

/// A field at an offset, behind those before, and the offset after it.
#[tactic(auto, unfolding(crate::specs::Members::field_at))]
fn field(
    alloc: Global,
    bytes: &[u8],
    at: u32,
    pool: &Pool,
    texts: &Texts,
    before: &[RawMember],
    seen: &mut BTreeSet<Key>,
) -> Result<(RawMember, u32), FileFault>
    requires bytes { length bytes.now < 2 ^ 32 }
    requires texts { IsTexts pool.now.entries texts.now }
    requires before { IsTrue (list_all (has_texts pool.now.entries) before.now) }
    requires seen { (key : Key) → contains key_cmp seen.old key ≡ has_key texts.now.numbers.items before.now key }
    ensures field { Gives result (field_at pool.now.entries bytes.now before.now at) }
    ensures seen { IfOk result (λ x. (key : Key) → has_texts pool.now.entries x.0 ≡ true
        → contains key_cmp seen.new key ≡ has_key texts.now.numbers.items (before.now ++ x.0 ∷ []) key) }
{
    let entries = pool.entries.as_slice();
    let (flags, name_at) = u16_at(bytes, at)?;
    let (name, descr_at) = u16_at(bytes, name_at)?;
    let (descr, next) = u16_at(bytes, descr_at)?;
    if !see_member(entries, texts, before, seen, name, descr)? {
        return Err(FileFault::Repeat { at });
    }
    check_text(entries, name_at, name)?;
    check_type(entries, descr_at, descr, is_field_type(texts, descr))?;
    let (attributes, end) = attributes(alloc, bytes, next, pool, Owner::Field)?;
    let field = RawMember {
        flags,
        name,
        descr,
        attributes,
    };
    Ok((field, end))
}

/// So many fields.
fn many_fields(
    alloc: Global,
    bytes: &[u8],
    at: u32,
    pool: &Pool,
    texts: &Texts,
    count: u16,
) -> Result<(Items<RawMember>, u32), FileFault>
    requires bytes { length bytes.now < 2 ^ 32 }
    requires texts { IsTexts pool.now.entries texts.now }
    ensures { Gives result (many_after (field_at pool.now.entries bytes.now) count [] at) }
{
    let mut seen = BTreeSet::new(alloc);
    let mut fields = Vec::new(alloc);
    let mut next = at;
    for _left in 0..count {
        let (one, end) = field(
            alloc,
            bytes,
            next,
            pool,
            texts,
            fields.as_slice(),
            &mut seen,
        )?;
        fields.push(one)?;
        next = end;
    }
    Ok((Items::from_vec(fields), next))
}

/// How many fields there are at an offset, each of them, and the offset after them.
#[tactic(auto, unfolding(crate::specs::Members::counted_after))]
pub fn fields(
    alloc: Global,
    bytes: &[u8],
    at: u32,
    pool: &Pool,
    texts: &Texts,
) -> Result<(Items<RawMember>, u32), FileFault>
    requires bytes { length bytes.now < 2 ^ 32 }
    requires texts { IsTexts pool.now.entries texts.now }
    ensures { Gives result (counted_after (field_at pool.now.entries bytes.now) bytes.now at) }
{
    let (count, next) = u16_at(bytes, at)?;
    many_fields(alloc, bytes, next, pool, texts, count)
}

/// The name of an attribute, which is passed over, and the offset after it.
#[tactic(auto, unfolding(crate::specs::Members::name_at))]
fn name(entries: &[Entry], bytes: &[u8], at: u32) -> Result<(u16, u32), FileFault>
    requires { length bytes.now < 2 ^ 32 }
    ensures { Gives result (name_at entries.now bytes.now at) }
{
    let (name, next) = u16_at(bytes, at)?;
    let (len, next) = u32_at(bytes, next)?;
    let end = behind(bytes, next, len)?;
    check_text(entries, at, name)?;
    Ok((name, end))
}

fn many_names(
    alloc: Global,
    entries: &[Entry],
    bytes: &[u8],
    at: u32,
    count: u16,
) -> Result<(Items<u16>, u32), FileFault>
    requires { length bytes.now < 2 ^ 32 }
    ensures { Gives result (many_at (name_at entries.now bytes.now) count [] at) }
{
    let mut names = Vec::new(alloc);
    let mut next = at;
    for _left in 0..count {
        let (name, end) = name(entries, bytes, next)?;
        names.push(name)?;
        next = end;
    }
    Ok((Items::from_vec(names), next))
}

/// How many attributes there are, and the name of each.
#[tactic(auto, unfolding(fp_model::specs::Reading::counted_at))]
fn names(
    alloc: Global,
    entries: &[Entry],
    bytes: &[u8],
    at: u32,
) -> Result<(Items<u16>, u32), FileFault>
    requires { length bytes.now < 2 ^ 32 }
    ensures { Gives result (counted_at (name_at entries.now bytes.now) bytes.now at) }
{
    let (count, next) = u16_at(bytes, at)?;
    many_names(alloc, entries, bytes, next, count)
}

/// Whether the text at an index is the name of a `Code` attribute.
fn is_code(entries: &[Entry], index: u16) -> bool
    ensures { result ≡ is_called (text_at entries.now index) (codes "Code") }
{
    match text(entries, index) {
        Some(name) => name == b"Code".as_slice(),
        None => false,
    }
}

/// How many of the attributes are a `Code`.
fn count_codes(entries: &[Entry], names: &[u16]) -> usize
    ensures { result ≡ members.code_count entries.now names.now }
{
    names.iter().filter(|name| is_code(entries, **name)).count()
}

/// How many words the arguments of a method take, whose parameters take so many.
fn with_receiver(flags: u16, words: u32) -> u32
    requires { words + 1 < 2 ^ 32 }
    ensures { result ≡ words + (if is_static flags then 0 else 1) }
{
    if is_static(flags) { words } else { words + 1 }
}

/// The words of a method's arguments, by its flags and its descriptor; none where it is no descriptor of a method, or
/// where its arguments take more than a method's may.
fn argument_words(texts: &Texts, flags: u16, descr: u16) -> Option<u16>
    ensures none { (entries : List Entry) → IsTexts entries texts.now
        → is_some result ≡ passes (is_type_of flags) (text_at entries descr) }
    ensures some { (entries : List Entry) → IsTexts entries texts.now
        → IfSome result (λ words. words ≡ members.argument_words flags (text_at entries descr)) }
{
    let words = parameter_words(texts, descr)?;
    if words > MOST_WORDS {
        return None;
    }
    let words = with_receiver(flags, words);
    if words > MOST_WORDS {
        return None;
    }
    Some(words as u16)
}

/// The words of a method's arguments, by its descriptor, whose index stands at an offset.
#[tactic(auto, unfolding(crate::specs::Members::words_at, fp_model::specs::References::text_checked), using(crate::proofs::Sorts::sorted))]
fn words_at(
    entries: &[Entry],
    texts: &Texts,
    flags: u16,
    at: u32,
    descr: u16,
) -> Result<u16, FileFault>
    requires { IsTexts entries.now texts.now }
    ensures { Gives result (members.words_at entries.now flags at descr) }
{
    check_text(entries, at, descr)?;
    match argument_words(texts, flags, descr) {
        Some(words) => Ok(words),
        None => Err(FileFault::Descriptor { at }),
    }
}

/// How many `Code` attributes a method has by its flags.
fn wanted_codes(flags: u16) -> usize
    ensures { result ≡ members.wanted_codes flags }
{
    if lacks_code(flags) { 0 } else { 1 }
}

/// A method at an offset, behind those before, and the offset after it.
#[tactic(auto, unfolding(crate::specs::Members::method_at))]
fn method(
    alloc: Global,
    bytes: &[u8],
    at: u32,
    pool: &Pool,
    texts: &Texts,
    before: &[RawMember],
    seen: &mut BTreeSet<Key>,
) -> Result<(RawMember, u32), FileFault>
    requires bytes { length bytes.now < 2 ^ 32 }
    requires few { length before.now < 65536 }
    requires texts { IsTexts pool.now.entries texts.now }
    requires before { IsTrue (list_all (has_texts pool.now.entries) before.now) }
    requires seen { (key : Key) → contains key_cmp seen.old key ≡ has_key texts.now.numbers.items before.now key }
    ensures method { Gives result (method_at pool.now.entries bytes.now before.now at) }
    ensures seen { IfOk result (λ x. (key : Key) → has_texts pool.now.entries x.0 ≡ true
        → contains key_cmp seen.new key ≡ has_key texts.now.numbers.items (before.now ++ x.0 ∷ []) key) }
{
    let entries = pool.entries.as_slice();
    let (flags, name_at) = u16_at(bytes, at)?;
    let (name, descr_at) = u16_at(bytes, name_at)?;
    let (descr, next) = u16_at(bytes, descr_at)?;
    if !see_member(entries, texts, before, seen, name, descr)? {
        return Err(FileFault::Repeat { at });
    }
    check_text(entries, name_at, name)?;
    let words = words_at(entries, texts, flags, descr_at, descr)?;
    let (names, _end) = names(alloc, entries, bytes, next)?;
    if count_codes(entries, names.as_slice()) != wanted_codes(flags) {
        return Err(FileFault::CodeCount {
            method: before.len() as u32,
        });
    }
    let (attributes, end) = attributes(alloc, bytes, next, pool, Owner::Method { words })?;
    let method = RawMember {
        flags,
        name,
        descr,
        attributes,
    };
    Ok((method, end))
}

/// So many methods.
fn many_methods(
    alloc: Global,
    bytes: &[u8],
    at: u32,
    pool: &Pool,
    texts: &Texts,
    count: u16,
) -> Result<(Items<RawMember>, u32), FileFault>
    requires bytes { length bytes.now < 2 ^ 32 }
    requires texts { IsTexts pool.now.entries texts.now }
    ensures { Gives result (many_after (method_at pool.now.entries bytes.now) count [] at) }
{
    let mut seen = BTreeSet::new(alloc);
    let mut methods = Vec::new(alloc);
    let mut next = at;
    for _left in 0..count {
        let (one, end) = method(
            alloc,
            bytes,
            next,
            pool,
            texts,
            methods.as_slice(),
            &mut seen,
        )?;
        methods.push(one)?;
        next = end;
    }
    Ok((Items::from_vec(methods), next))
}

/// How many methods there are at an offset, each of them, and the offset after them.
#[tactic(auto, unfolding(crate::specs::Members::counted_after))]
pub fn methods(
    alloc: Global,
    bytes: &[u8],
    at: u32,
    pool: &Pool,
    texts: &Texts,
) -> Result<(Items<RawMember>, u32), FileFault>
    requires bytes { length bytes.now < 2 ^ 32 }
    requires texts { IsTexts pool.now.entries texts.now }
    ensures { Gives result (counted_after (method_at pool.now.entries bytes.now) bytes.now at) }
{
    let (count, next) = u16_at(bytes, at)?;
    many_methods(alloc, bytes, next, pool, texts, count)
}
