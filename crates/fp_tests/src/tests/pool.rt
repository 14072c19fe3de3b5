//! The constant pool (JVMS SE 21 section 4.4).
use super::table::check;
use crate::short;
use fp_model::Entry;
use fp_pool::{check_references, cut_pool, read_pool};
use std::alloc::{AllocError, Global};
use std::test::Fail;

/// Pools by their tags and lengths alone, and where each ends, or its first fault.
const CUT: &str = "\
    cut 0001;2\n\
    cut 000201000141;6\n\
    cut 0002010000;5\n\
    cut 00020300000001;7\n\
    cut 00020400000001;7\n\
    cut 0003050000000000000001;11\n\
    cut 0003060000000000000001;11\n\
    cut 0002070009;5\n\
    cut 0002080009;5\n\
    cut 00020900090009;7\n\
    cut 00020a00090009;7\n\
    cut 00020b00090009;7\n\
    cut 00020c00090009;7\n\
    cut 00020f000009;6\n\
    cut 0002100009;5\n\
    cut 00021100090009;7\n\
    cut 00021200090009;7\n\
    cut 0002130009;5\n\
    cut 0002140009;5\n\
    cut ;Truncated { at: 0 }\n\
    cut 00;Truncated { at: 0 }\n\
    cut 0000;Bounds { at: 0 }\n\
    cut 0002;Truncated { at: 2 }\n\
    cut 000200;Tag { at: 2, tag: 0 }\n\
    cut 00020200000001;Tag { at: 2, tag: 2 }\n\
    cut 00020d;Tag { at: 2, tag: 13 }\n\
    cut 00020e;Tag { at: 2, tag: 14 }\n\
    cut 0003030000000115;Tag { at: 7, tag: 21 }\n\
    cut 00020100;Truncated { at: 3 }\n\
    cut 000201000241;Truncated { at: 5 }\n\
    cut 000203000000;Truncated { at: 3 }\n\
    cut 000204000000;Truncated { at: 3 }\n\
    cut 00030500000000000000;Truncated { at: 3 }\n\
    cut 00030600000000;Truncated { at: 3 }\n\
    cut 0002050000000000000001;Index { at: 2, index: 1 }\n\
    cut 000206;Index { at: 2, index: 1 }\n\
    cut 000405000000000000000106;Index { at: 11, index: 3 }\n\
    cut 00020700;Truncated { at: 3 }\n\
    cut 00020800;Truncated { at: 3 }\n\
    cut 000209000100;Truncated { at: 5 }\n\
    cut 00020a00;Truncated { at: 3 }\n\
    cut 00020b000100;Truncated { at: 5 }\n\
    cut 00020c000100;Truncated { at: 5 }\n\
    cut 00020f;Truncated { at: 3 }\n\
    cut 00020f0100;Truncated { at: 4 }\n\
    cut 00021000;Truncated { at: 3 }\n\
    cut 000211000100;Truncated { at: 5 }\n\
    cut 00021200;Truncated { at: 3 }\n\
    cut 00021300;Truncated { at: 3 }\n\
    cut 00021400;Truncated { at: 3 }\n\
    ";

/// Pools with what their entries refer to: classes, strings, modules, packages, members, names and types, method types, and
/// what is computed. Cutting comes before what is referred to.
const REFERENCES: &str = "\
    read 000307000201000141;9\n\
    read 00030700020100025b49;10\n\
    read 0003070002010000;8\n\
    read 0002070000;Index { at: 3, index: 0 }\n\
    read 0002070001;Index { at: 3, index: 1 }\n\
    read 0002070002;Index { at: 3, index: 2 }\n\
    read 0004070003050000000000000001;Index { at: 3, index: 3 }\n\
    read 00030700020100025b56;Descriptor { at: 3 }\n\
    read 00030800020100015b;9\n\
    read 00030800020300000001;Index { at: 3, index: 2 }\n\
    read 000313000201000141;9\n\
    read 0002130001;Index { at: 3, index: 1 }\n\
    read 000314000201000141;9\n\
    read 0002140000;Index { at: 3, index: 0 }\n\
    read 000609000200030700040c000400050100014101000149;23\n\
    read 00060a000200030700040c0004000501000141010003282956;25\n\
    read 00060b000200030700040c0004000501000141010003282956;25\n\
    read 000609000400030700040c000400050100014101000149;Index { at: 3, index: 4 }\n\
    read 00060a000200020700040c0004000501000141010003282956;Index { at: 5, index: 2 }\n\
    read 000609000200030700040c0004000501000141010003282956;Descriptor { at: 5 }\n\
    read 00060a000200030700040c000400050100014101000149;Descriptor { at: 5 }\n\
    read 00060b000200030700040c000400050100014101000149;Descriptor { at: 5 }\n\
    read 000609000200030700040c000400050100014101000156;Descriptor { at: 13 }\n\
    read 00060a000200030700040c000400020100014101000149;Index { at: 13, index: 2 }\n\
    read 00030c0002000201000149;11\n\
    read 00030c0001000201000149;Index { at: 3, index: 1 }\n\
    read 00030c0002000001000149;Index { at: 5, index: 0 }\n\
    read 0003100002010003282956;11\n\
    read 000310000201000149;Descriptor { at: 3 }\n\
    read 0002100001;Index { at: 3, index: 1 }\n\
    read 000511000900020c000300040100014101000149;20\n\
    read 000511000900020c0003000401000141010003282956;Descriptor { at: 5 }\n\
    read 000511000900030c000300040100014101000149;Index { at: 5, index: 3 }\n\
    read 000512000900020c0003000401000141010003282956;22\n\
    read 000512000900020c000300040100014101000149;Descriptor { at: 5 }\n\
    read 000512000900020c000300020100014101000149;Index { at: 10, index: 2 }\n\
    read 000307000002;Tag { at: 5, tag: 2 }\n\
    ";

/// Method handles of each kind, to a field, a method and a method of an interface (table 5.4.3.5-A), and of no kind.
const HANDLES: &str = "\
    read 00070f01000209000300040700050c000500060100014101000149;27\n\
    read 00070f0100020a000300040700050c0005000601000141010003282956;Index { at: 4, index: 2 }\n\
    read 00070f0100020b000300040700050c0005000601000141010003282956;Index { at: 4, index: 2 }\n\
    read 00070f02000209000300040700050c000500060100014101000149;27\n\
    read 00070f0200020a000300040700050c0005000601000141010003282956;Index { at: 4, index: 2 }\n\
    read 00070f0200020b000300040700050c0005000601000141010003282956;Index { at: 4, index: 2 }\n\
    read 00070f03000209000300040700050c000500060100014101000149;27\n\
    read 00070f0300020a000300040700050c0005000601000141010003282956;Index { at: 4, index: 2 }\n\
    read 00070f0300020b000300040700050c0005000601000141010003282956;Index { at: 4, index: 2 }\n\
    read 00070f04000209000300040700050c000500060100014101000149;27\n\
    read 00070f0400020a000300040700050c0005000601000141010003282956;Index { at: 4, index: 2 }\n\
    read 00070f0400020b000300040700050c0005000601000141010003282956;Index { at: 4, index: 2 }\n\
    read 00070f05000209000300040700050c000500060100014101000149;Index { at: 4, index: 2 }\n\
    read 00070f0500020a000300040700050c0005000601000141010003282956;29\n\
    read 00070f0500020b000300040700050c0005000601000141010003282956;Index { at: 4, index: 2 }\n\
    read 00070f06000209000300040700050c000500060100014101000149;Index { at: 4, index: 2 }\n\
    read 00070f0600020a000300040700050c0005000601000141010003282956;29\n\
    read 00070f0600020b000300040700050c0005000601000141010003282956;29\n\
    read 00070f07000209000300040700050c000500060100014101000149;Index { at: 4, index: 2 }\n\
    read 00070f0700020a000300040700050c0005000601000141010003282956;29\n\
    read 00070f0700020b000300040700050c0005000601000141010003282956;29\n\
    read 00070f08000209000300040700050c000500060100014101000149;Index { at: 4, index: 2 }\n\
    read 00070f0800020a000300040700050c0005000601000141010003282956;29\n\
    read 00070f0800020b000300040700050c0005000601000141010003282956;Index { at: 4, index: 2 }\n\
    read 00070f09000209000300040700050c000500060100014101000149;Index { at: 4, index: 2 }\n\
    read 00070f0900020a000300040700050c0005000601000141010003282956;Index { at: 4, index: 2 }\n\
    read 00070f0900020b000300040700050c0005000601000141010003282956;29\n\
    read 00070f00000209000300040700050c000500060100014101000149;Bounds { at: 3 }\n\
    read 00070f0a000209000300040700050c000500060100014101000149;Bounds { at: 3 }\n\
    ";

/// Where a pool ends that is cut or read, or its first fault.
fn told(alloc: Global, input: &str) -> Result<String, Fail> {
    let (how, digits) = input.split_once(' ').ok_or("not how")?;
    let bytes = hex::decode(alloc, digits)?;
    pool_text(alloc, how, &bytes)
}

fn pool_text(alloc: Global, how: &str, bytes: &[u8]) -> Result<String, Fail> {
    let bytes = short(bytes).ok_or("too long")?;
    let found = if how == "cut" {
        cut_pool(alloc, bytes, 0)
    } else {
        read_pool(alloc, bytes, 0)
    };
    let text = match found {
        Ok((_pool, end)) => format!(in alloc; "{end}"),
        Err(fault) => format!(in alloc; "{fault:?}"),
    };
    Ok(text?)
}

#[test]
fn pools_are_read_or_refused_at_their_first_fault(rt: HostRuntime) -> Result<(), Fail> {
    for table in [CUT, REFERENCES, HANDLES] {
        check(&rt, rt.alloc(), table, told)?;
    }
    Ok(())
}

/// What comes of the class of an array of ints with one dimension and so many more.
fn array_text(alloc: Global, more: u8) -> Result<String, Fail> {
    let length = u16::from(more).saturating_add(2);
    let mut bytes = Vec::from_slice(alloc, b"\0\x03\x07\0\x02\x01")?;
    bytes.extend_from_slice(&length.to_be_bytes())?;
    bytes.push(b'[')?;
    for _ in 0..more {
        bytes.push(b'[')?;
    }
    bytes.push(b'I')?;
    pool_text(alloc, "read", &bytes)
}

#[test]
fn an_array_class_has_at_most_255_dimensions(rt: HostRuntime) -> Result<(), Fail> {
    for (more, wanted) in [(254, "264"), (255, "Descriptor { at: 3 }")] {
        assert_eq!(rt; array_text(rt.alloc(), more)?.as_str(), wanted);
    }
    Ok(())
}

fn entry_text(alloc: Global, entry: &Entry) -> Result<String, AllocError> {
    match entry {
        Entry::Unused => String::from_str(alloc, "unused"),
        Entry::Utf8(text) => format!(in alloc; "text of {}", text.len()),
        Entry::Long(bits) => format!(in alloc; "long {bits}"),
        Entry::Class(name) => format!(in alloc; "class {name}"),
        _ => String::from_str(alloc, "another"),
    }
}

/// The entries of a pool behind two bytes, and whether they refer to what they have to.
fn entries_text(alloc: Global, bytes: &[u8]) -> Result<String, Fail> {
    let bytes = short(bytes).ok_or("too long")?;
    let (pool, end) = cut_pool(alloc, bytes, 2)?;
    let mut texts = Vec::new(alloc);
    for entry in pool.entries.as_slice() {
        texts.push(entry_text(alloc, entry)?)?;
    }
    texts.push(format!(in alloc; "end {end}")?)?;
    Ok(texts.join(alloc, ", ")?)
}

#[test]
fn a_pool_is_kept_by_index(rt: HostRuntime) -> Result<(), Fail> {
    let bytes = b"??\0\x05\x05\0\0\0\0\0\0\0\x07\x07\0\x04\x01\0\x01A";
    let text = entries_text(rt.alloc(), bytes)?;
    assert_eq!(rt;
        text.as_str(),
        "unused, long 7, unused, class 4, text of 1, end 20"
    );
    Ok(())
}

#[test]
fn references_are_checked_alone(rt: HostRuntime) {
    let entries = [Entry::Unused, Entry::Class(0)];
    let fault = check_references(rt.alloc(), &entries, 10);
    assert_eq!(rt; fault, Err(fp_model::FileFault::Index { at: 11, index: 0 }));
}
