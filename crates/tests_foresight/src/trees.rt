//! Trees of components that are laid over one another, in memory and on disk.
use component_tree::{Component, Tree, TreeError, Variant, load_tree};
use pl_base::{Files, List, MemFiles, Memory, Name, RealFiles};
use std::alloc::{AllocError, Global};
use std::os::unix::fs::symlink;
use std::test::Fail;

/// One record, and none.
const ONE: &str = "[{\"pcr\":11,\"digests\":[]}]";

const NONE: &str = "[]";

fn names(alloc: Global, texts: &[&str]) -> Result<Vec<Name>, Memory> {
    let mut names = Vec::new(alloc);
    for text in texts {
        names.push(Name::from_text(alloc, text)?)?;
    }
    Ok(names)
}

/// A variant as text: the component, the variant, and whether it has no record or some.
fn put_variant(text: &mut String, id: &Name, variant: &Variant) -> Result<(), AllocError> {
    text.push_str(id.text())?;
    text.push(' ')?;
    text.push_str(variant.name.text())?;
    text.push_str(if variant.records.is_empty() {
        " 0;"
    } else {
        " 1;"
    })
}

/// The variants of a component as text.
fn put_component(text: &mut String, component: &Component) -> Result<(), AllocError> {
    for variant in component.variants.as_slice() {
        put_variant(text, &component.id, variant)?;
    }
    Ok(())
}

/// A tree as text.
fn tree_text(alloc: Global, tree: &Tree) -> Result<String, AllocError> {
    let mut text = String::new(alloc);
    for component in tree.components.as_slice() {
        put_component(&mut text, component)?;
    }
    Ok(text)
}

/// Files as `path=text`, each of one record where no text follows.
fn files_of(alloc: Global, held: &str) -> Result<MemFiles, Fail> {
    let mut files = MemFiles::new(alloc, List::new(alloc));
    for file in held.split(' ') {
        let (path, text) = file.split_once('=').unwrap_or((file, ONE));
        files.put(path, text.as_bytes())?;
    }
    Ok(files)
}

/// Whether the folders `a` to `c` with these files give the tree of this text.
fn gives(alloc: Global, held: &str, expected: &str) -> Result<bool, Fail> {
    let mut files = files_of(alloc, held)?;
    let folders = names(alloc, &["a", "missing", "b", "c"])?;
    match load_tree(alloc, &mut files, &folders) {
        Ok(tree) => Ok(tree_text(alloc, &tree)?.as_str() == expected),
        Err(_) => Ok(false),
    }
}

/// The path whose name is refused, or none.
fn bad_name(alloc: Global, held: &str) -> Result<Option<Name>, Fail> {
    let mut files = files_of(alloc, held)?;
    match load_tree(alloc, &mut files, &names(alloc, &["a"])?) {
        Err(TreeError::BadName(path)) => Ok(Some(path)),
        _ => Ok(None),
    }
}

#[test]
fn folders_are_laid_over_one_another(rt: HostRuntime) -> Result<(), Fail> {
    let alloc = rt.alloc();
    assert!(rt;
        gives(
            alloc,
            "b/x.pcrlock a/x.pcrlock=[] c/y.pcrlock",
            "x - 0;y - 1;"
        )?
    );
    let held = "a/x.pcrlock.d/1.pcrlock=[] b/x.pcrlock.d/1.pcrlock b/x.pcrlock.d/2.pcrlock";
    assert!(rt; gives(alloc, held, "x 1 0;x 2 1;")?);
    // an empty file masks those of its name
    assert!(rt;
        gives(
            alloc,
            "a/x.pcrlock= b/x.pcrlock b/x.pcrlock.d/1.pcrlock",
            "x 1 1;"
        )?
    );
    Ok(())
}

#[test]
fn names_are_in_order_or_refused(rt: HostRuntime) -> Result<(), Fail> {
    let alloc = rt.alloc();
    assert!(rt;
        gives(
            alloc,
            "a/650-k-x.pcrlock a/650-k.pcrlock",
            "650-k - 1;650-k-x - 1;"
        )?
    );
    let refused = bad_name(alloc, "a/.pcrlock=?")?.ok_or("not refused")?;
    assert_eq!(rt; refused.text(), "a/.pcrlock");
    Ok(())
}

/// Files of two folders on disk.
fn put_files<F: Files>(alloc: Global, files: &mut F) -> bool {
    files
        .replace(alloc, "real/x.pcrlock", ONE.as_bytes())
        .is_ok()
        && files
            .replace(alloc, "real/y.pcrlock.d/2.pcrlock", ONE.as_bytes())
            .is_ok()
        && files
            .replace(alloc, "real/y.pcrlock.d/1.pcrlock", b"")
            .is_ok()
        && files.replace(alloc, "below/x.pcrlock", b"?").is_ok()
        && files
            .replace(alloc, "below/t.pcrlock", NONE.as_bytes())
            .is_ok()
}

/// A link that leads nowhere is listed, and isn't there when it is read: the file of that name in the next folder is
/// taken.
#[test]
fn folders_on_disk_are_read(rt: HostRuntime) -> Result<(), Fail> {
    let alloc = rt.alloc();
    let mut files = RealFiles::new(&rt);
    assert!(rt; put_files(alloc, &mut files));
    symlink(&rt, "nowhere", "real/t.pcrlock")?;
    symlink(&rt, "nowhere", "real/s.pcrlock")?;
    let folders = names(alloc, &["missing", "real", "below"])?;
    let tree = load_tree(alloc, &mut files, &folders)?;
    let text = tree_text(alloc, &tree)?;
    assert_eq!(rt; text.as_str(), "t - 0;x - 1;y 2 1;");
    // a file in place of a folder
    let folders = names(alloc, &["real/x.pcrlock"])?;
    let answer = load_tree(alloc, &mut files, &folders);
    assert!(rt; matches!(answer, Err(TreeError::Failed)));
    Ok(())
}
