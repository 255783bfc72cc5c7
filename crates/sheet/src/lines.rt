// The lines of the sheet, each written at the end of a page.
ghost use Rattle.std.specs.Prelude.{◌≡◌, length};
ghost use Rattle.network_calls.specs.Answers.{answered};
ghost use Rattle.sheet.specs.Text.{Grown};
ghost use Rattle.sheet.specs.Answers.{Printable};
ghost use Rattle.sheet.specs.Sheet.{two_numbers, node_text, nodes_text, route_line, settled_line, choice_lines, answer_text};

use super::words::{Page, write_number, write_word};
use network_calls::Decision;

// A line of two numbers with a word before each.
pub fn write_pair(page: &mut Page, first: &[u8], x: u32, second: &[u8], y: u32)
    ensures { Grown page.old.items (two_numbers first.now x second.now y) page.new.items }
{
    write_word(page, first);
    write_number(page, x);
    write_word(page, second);
    write_number(page, y);
    write_word(page, b"\n");
}

// A space and a node.
fn write_node(page: &mut Page, node: u32)
    ensures { Grown page.old.items (node_text node) page.new.items }
{
    write_word(page, b" ");
    write_number(page, node);
}

// All nodes of a path, a space before each.
fn write_nodes(page: &mut Page, path: &[u16])
    ensures { Grown page.old.items (nodes_text path.now) page.new.items }
{
    for &node in path {
        write_node(page, u32::from(node));
    }
}

// The line of a path.
fn write_route(page: &mut Page, path: &[u16])
    ensures { Grown page.old.items (route_line path.now) page.new.items }
{
    write_word(page, b"route");
    write_nodes(page, path);
    write_word(page, b"\n");
}

// The lines of a path, its figure and its worst column.
fn write_choice(page: &mut Page, path: &[u16], figure: u32, worst: u32)
    ensures { Grown page.old.items (choice_lines path.now figure worst) page.new.items }
{
    write_route(page, path);
    write_pair(page, b"regret ", figure, b" column ", worst);
}

// The line of a settled answer's count.
fn write_count(page: &mut Page, count: u32)
    ensures { Grown page.old.items (settled_line count) page.new.items }
{
    write_word(page, b"ranked ");
    write_number(page, count);
    write_word(page, b" settled\n");
}

// The sheet of a decision, whose path is given.
pub fn decision_page(path: &[u16], found: Decision) -> Page
    requires { Printable path.now (length path.now) }
    ensures { result.items ≡ answer_text (answered path.now found) }
{
    let mut page = Page::new();
    write_choice(&mut page, path, found.figure, found.worst);
    match found.floor {
        None => write_count(&mut page, found.count),
        Some(floor) => write_pair(&mut page, b"ranked ", found.count, b" open floor ", floor),
    }
    page
}
