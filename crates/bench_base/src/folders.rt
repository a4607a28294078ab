// The folders that programs of cases go over.
use anyhow::Result;
use std::fs;
use std::path::Path;
use std::rt::Files;

/// The names of the folders in a folder, in their order as text.
pub fn names_in<R: Files + AllocGlobal + Clone + Drop>(
    rt: &R,
    folder: Path<'_>,
) -> Result<Vec<String>> {
    let mut names = Vec::new(rt.alloc());
    for entry in fs::read_dir(rt, folder)? {
        let entry = entry?;
        if entry.file_type()?.is_dir() {
            names.push(String::from_str(rt.alloc(), entry.file_name())?)?;
        }
    }
    names.sort()?;
    Ok(names)
}
