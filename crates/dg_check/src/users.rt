// For each block those that need it. Nothing is proved of them: they only guide walks whose outcome is tested.
use dg_values::{List, Mem, OutOfMemory};
use std::alloc::Global;

// Adds a block to the users of each block that it needs.
fn add_user(users: &mut [Vec<usize>], needs: &[usize], at: usize) -> Mem<()> {
    for need in needs {
        if let Some(known) = users.get_mut(*need) {
            known.push(at)?;
        }
    }
    Ok(())
}

// So many empty lists.
fn empty_lists(alloc: Global, count: usize) -> Mem<Vec<Vec<usize>>> {
    let mut lists = Vec::new(alloc);
    for _list in 0..count {
        lists.push(Vec::new(alloc))?;
    }
    Ok(lists)
}

/// For each block those that need it, each as often as it does.
pub fn users_of(alloc: Global, deps: &[List<usize>]) -> Mem<Vec<Vec<usize>>> {
    let mut users = empty_lists(alloc, deps.len())?;
    for (at, needs) in deps.iter().enumerate() {
        add_user(users.as_mut_slice(), needs.as_slice(), at)?;
    }
    Ok(users)
}

/// The users of the block at a place.
pub fn users_at(users: &[Vec<usize>], at: usize) -> &[usize] {
    match users.get(at) {
        None => &[],
        Some(known) => known.as_slice(),
    }
}
