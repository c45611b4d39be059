use scope_names::Names;
use std::alloc::{AllocError, Global};
use table_lines::Case;

pub fn last_of_equal_names_is_found(alloc: Global) -> Result<Case, AllocError> {
    let x = String::from_str(alloc, "x")?;
    let y = String::from_str(alloc, "y")?;
    let mut names = Names::new(alloc);
    names.bind(&x)?;
    names.bind(&y)?;
    let mut inner = Names::new(alloc);
    inner.bind(&x)?;
    names.enter(inner)?;
    let mut case = Case::new();
    case.must(names.len() == 3);
    case.must(names.index("x") == 0);
    case.must(names.index("y") == 1);
    names.leave(2);
    case.must(names.index("x") == 1);
    case.must(names.index("z") == 2);
    Ok(case)
}
