//! A template with its name.
use heex_reader::read_template;
use std::test::Fail;

#[test]
fn a_template_has_its_name(rt: HostRuntime) -> Result<(), Fail> {
    let alloc = rt.alloc();
    let template = read_template(alloc, "card", "a{1}").ok().ok_or("refused")?;
    assert_eq!(rt; template.name.as_str(), "card");
    assert_eq!(rt; template.nodes.len(), 2);
    assert!(rt; read_template(alloc, "card", "<b>").is_err());
    Ok(())
}
