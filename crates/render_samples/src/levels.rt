//! How many bodies may stand in one another.
use crate::sent::{first_shown, wrong};
use std::alloc::Global;
use std::test::Fail;
use text_core::{OutOfMemory, Text};

// So many branches, one in the other.
fn nested(alloc: Global, branches: usize) -> Result<Text, OutOfMemory> {
    let mut template = Text::new(alloc);
    for _branch in 0..branches {
        template.push_str("<%= if @a do %>")?;
    }
    for _branch in 0..branches {
        template.push_str("x<% end %>")?;
    }
    Ok(template)
}

#[test]
fn forty_branches_and_one_more(rt: HostRuntime) -> Result<(), Fail> {
    let alloc = rt.alloc();
    let forty = nested(alloc, 40)?;
    let (frame, page) = first_shown(alloc, forty.as_str(), "a", "1")?;
    assert!(rt; frame.as_str() != "raised");
    assert_eq!(rt; page.as_str(), "xxxxxxxxxxxxxxxxxxxxxxxxxxxxxxxxxxxxxxxx");
    let more = nested(alloc, 41)?;
    let (frame, page) = first_shown(alloc, more.as_str(), "a", "1")?;
    assert_eq!(rt; frame.as_str(), "raised");
    assert_eq!(rt; page.as_str(), "raised");
    // A branch that is not taken counts for nothing.
    let steps = [
        ("a", "false", "{\"0\":\"\",\"s\":[\"\",\"\"]}", ""),
        ("a", "1", "raised", "raised"),
        ("a", "null", "{\"0\":\"\",\"s\":[\"\",\"\"]}", ""),
    ];
    assert_eq!(rt; wrong(alloc, more.as_str(), &steps)?.as_str(), "");
    Ok(())
}
