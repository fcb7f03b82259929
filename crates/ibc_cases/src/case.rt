//! Files of cases. A case begins with a line `# ` and its title. Below stands its script, and then what is done with it, in
//! parts that each begin with a line `> `: forgeries alone, or other parts alone. What stands before the first case is for
//! readers alone.

use crate::directive::Directive;
use crate::forgery::Group;
use crate::lines::Lines;
use crate::mistake::Stop;
use crate::runs::print_script;
use std::alloc::Global;
use std::io;
use std::io::Write;

// The forgeries that each part is.
fn groups_of<'t>(alloc: Global, parts: &[Lines<'t>]) -> Result<Vec<Group<'t>>, Stop> {
    let mut groups = Vec::new(alloc);
    for part in parts {
        let group = Group::of(*part)?;
        groups.push(group)?;
    }
    Ok(groups)
}

// Prints what comes of a script that is sent forgeries, or none.
fn print_forged<W: Write>(
    alloc: Global,
    script: &[u8],
    parts: &[Lines<'_>],
    output: &mut W,
) -> Result<(), Stop> {
    let groups = groups_of(alloc, parts)?;
    let printed = print_script(alloc, script, groups.as_slice(), output);
    drop(groups);
    printed
}

// What each part says.
fn directives_of<'t>(alloc: Global, parts: &[Lines<'t>]) -> Result<Vec<Directive<'t>>, Stop> {
    let mut directives = Vec::new(alloc);
    for part in parts {
        let directive = Directive::of(*part)?;
        directives.push(directive)?;
    }
    Ok(directives)
}

// Prints what comes of each part in turn.
fn print_parts<W: Write>(
    alloc: Global,
    script: &[u8],
    parts: &[Lines<'_>],
    output: &mut W,
) -> Result<(), Stop> {
    let directives = directives_of(alloc, parts)?;
    let printed = print_each(alloc, script, directives.as_slice(), output);
    drop(directives);
    Ok(printed?)
}

// Prints what comes of each of what parts say.
fn print_each<W: Write>(
    alloc: Global,
    script: &[u8],
    directives: &[Directive<'_>],
    output: &mut W,
) -> io::Result<()> {
    for directive in directives {
        directive.print(alloc, script, output)?;
    }
    Ok(())
}

// Prints what comes of a script and of the parts below it.
fn print_body<W: Write>(
    alloc: Global,
    script: Lines<'_>,
    parts: &[Lines<'_>],
    output: &mut W,
) -> Result<(), Stop> {
    let script = script.joined(alloc)?;
    let printed = print_of(alloc, script.as_slice(), parts, output);
    drop(script);
    printed
}

// The same of the script as one text.
fn print_of<W: Write>(
    alloc: Global,
    script: &[u8],
    parts: &[Lines<'_>],
    output: &mut W,
) -> Result<(), Stop> {
    match parts.first() {
        Some(part) if Directive::is_meant(*part) => print_parts(alloc, script, parts, output),
        _ => print_forged(alloc, script, parts, output),
    }
}

// Prints a case, which begins with its title.
fn print_case<W: Write>(alloc: Global, case: Lines<'_>, output: &mut W) -> Result<(), Stop> {
    let Some((title, body)) = case.split_first() else {
        return Ok(());
    };
    output.write_all(title)?;
    output.write_all(b"\n")?;
    let pieces = body.pieces(alloc, b"> ")?;
    let printed = match pieces.as_slice().split_first() {
        Some((script, parts)) => print_body(alloc, *script, parts, output),
        None => Ok(()),
    };
    drop(pieces);
    printed
}

/// Prints each case of a file: its title, and what comes of it. Errors: the first line with a mistake, behind the title of its
/// case and what was printed of the cases before; no memory, and an output that can't be written.
pub fn print_cases<W: Write>(alloc: Global, text: &[u8], output: &mut W) -> Result<(), Stop> {
    let texts: Vec<&[u8]> = text.split(|byte| *byte == b'\n').collect(alloc)?;
    let lines = Lines {
        number: 1,
        texts: texts.as_slice(),
    };
    let printed = print_lines(alloc, lines, output);
    drop(texts);
    printed
}

// Prints each case of a file's lines.
fn print_lines<W: Write>(alloc: Global, lines: Lines<'_>, output: &mut W) -> Result<(), Stop> {
    let cases = lines.pieces(alloc, b"# ")?;
    let printed = print_behind(alloc, cases.as_slice(), output);
    drop(cases);
    printed
}

// Prints each of these but for the first, which is for readers alone.
fn print_behind<W: Write>(alloc: Global, cases: &[Lines<'_>], output: &mut W) -> Result<(), Stop> {
    for case in cases.iter().skip(1) {
        print_case(alloc, *case, output)?;
    }
    Ok(())
}
