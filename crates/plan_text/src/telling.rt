// The whole text of commands, and what is told of each plan in it.
ghost use Rattle.std.specs.Prelude.{◌≡◌, [], IfOk, OnOk, Some, string_bytes, vec_len};
ghost use Rattle.plan_text.specs.Texts.{GrownBy, GrownByA};
ghost use Rattle.plan_text.specs.Reports.{ViewText, PlanTold, ShapeLinks, title, title_text, EndTold, ShapeTold, LinkRead, ReadingEnds, LineTold, Told, complaint, nothing_read};
ghost use Rattle.plan_text.specs.Readers.{reading_of};

use crate::commands::{Command, UnknownCommand};
use crate::laid::{Laid, LayError, Plan, lay};
use crate::picture::write_picture;
use crate::tree::{write_fault, write_summary, write_tree};
use ring::{Link, MOST_TERMINALS, side_count};
use shapes::{Shape, draw_shape};
use std::alloc::{AllocError, Global};

// What is told of a plan that is accepted.
#[derive(Clone, Copy, Debug, PartialEq, Eq)]
pub enum View {
    Summary,
    Tree,
    Picture,
}

// What is told so far, and the plan that is being read, if one is.
#[derive(Drop)]
struct Reader {
    text: String,
    view: View,
    plan: Option<Plan>,
}

// Writes what is shown of an accepted plan.
fn write_laid(text: &mut String, laid: &Laid, view: View) -> Result<(), AllocError>
    ensures { OnOk result (GrownByA (ViewText view laid.now) text.old text.new) }
{
    match view {
        View::Summary => write_summary(text, laid),
        View::Tree => {
            write_summary(text, laid)?;
            write_tree(text, laid)
        }
        View::Picture => write_picture(text, laid),
    }
}

// Lays out a plan and writes what is to be told of it.
fn tell(text: &mut String, plan: &Plan, view: View) -> Result<(), AllocError>
    ensures { OnOk result (GrownByA (PlanTold view plan.now.terminals plan.now.links.items) text.old text.new) }
{
    match lay(*text.allocator(), plan) {
        Ok(laid) => write_laid(text, &laid, view),
        Err(LayError::Refused(fault)) => write_fault(text, &plan.links, fault),
        Err(LayError::OutOfMemory) => Err(AllocError),
    }
}

// The links of a shape.
fn shape_links(heap: Global, shape: Shape, n: usize) -> Result<Vec<Link>, AllocError>
    ensures { IfOk result (λ links. ShapeLinks shape n links.items) }
{
    match shape {
        Shape::Bare => Ok(Vec::new(heap)),
        _ => {
            let mut links = vec![in heap; Link { from: 0, to: 0 }; side_count(n)]?;
            draw_shape(
                shape,
                n.min(MOST_TERMINALS).saturating_sub(1) as u16,
                &mut links,
            );
            Ok(links)
        }
    }
}

// Writes how many terminals and links a plan has.
fn write_sizes(text: &mut String, n: usize, links: usize) -> Result<(), AllocError>
    ensures { OnOk result (GrownBy text.old text.new (title n links)) }
{
    writeln!(text, "plan, terminals: {n}, links: {links}")
}

// Writes the line before what is told of a plan; before a picture there is none.
fn write_title(text: &mut String, plan: &Plan, view: View) -> Result<(), AllocError>
    ensures { OnOk result (GrownBy text.old text.new (title_text view plan.now.terminals (vec_len plan.now.links))) }
{
    match view {
        View::Picture => Ok(()),
        View::Summary | View::Tree => write_sizes(text, plan.terminals, plan.links.len()),
    }
}

// Tells of a plan with its title.
fn tell_titled(text: &mut String, plan: &Plan, view: View) -> Result<(), AllocError>
    ensures { OnOk result (GrownByA (EndTold view (Some plan.now.terminals) plan.now.links.items) text.old text.new) }
{
    write_title(text, plan, view)?;
    tell(text, plan, view)
}

impl Reader {
    // Nothing is told, and no plan read.
    fn new(heap: Global, view: View) -> Reader
        ensures empty { string_bytes result.text ≡ [] }
        ensures nothing { reading_of result ≡ nothing_read }
        ensures view { result.view ≡ view }
    {
        Reader {
            text: String::new(heap),
            view,
            plan: None,
        }
    }

    // Tells of the plan that was read, if one was.
    fn end_plan(&mut self) -> Result<(), AllocError>
        ensures told { OnOk result (GrownByA (ReadingEnds self.old.view (reading_of self.old)) self.old.text self.new.text) }
        ensures ended { reading_of self.new ≡ nothing_read }
        ensures view { self.new.view ≡ self.old.view }
    {
        if let Some(plan) = self.plan.take() {
            tell_titled(&mut self.text, &plan, self.view)?;
        }
        Ok(())
    }

    // Tells of a shape, after the plan that was read.
    fn tell_shape(&mut self, line: &str, shape: Shape, n: usize) -> Result<(), AllocError>
        ensures told { OnOk result (GrownByA (ShapeTold self.old.view line.now shape n (reading_of self.old)) self.old.text self.new.text) }
        ensures ended { reading_of self.new ≡ nothing_read }
        ensures view { self.new.view ≡ self.old.view }
    {
        self.end_plan()?;
        let heap = *self.text.allocator();
        let plan = Plan {
            terminals: n,
            links: shape_links(heap, shape, n)?,
        };
        write!(self.text, "{line}: ")?;
        tell(&mut self.text, &plan, View::Summary)
    }

    // Says that a line cannot be carried out.
    fn complain(&mut self, number: usize, line: &str, why: &str) -> Result<(), AllocError>
        ensures told { OnOk result (GrownBy self.old.text self.new.text (complaint number line.now why.now)) }
        ensures same { reading_of self.new ≡ reading_of self.old }
        ensures view { self.new.view ≡ self.old.view }
    {
        writeln!(self.text, "line {number}{why}{line}")
    }

    // Adds a link to the plan that is being read.
    fn add_link(&mut self, number: usize, line: &str, link: Link) -> Result<(), AllocError>
        ensures told { OnOk result (GrownByA (LinkRead number line.now link (reading_of self.old) (reading_of self.new)) self.old.text self.new.text) }
        ensures view { self.new.view ≡ self.old.view }
    {
        if let Some(plan) = &mut self.plan {
            plan.links.push(link)?;
        } else {
            self.complain(number, line, " stands in no plan: ")?;
        }
        Ok(())
    }

    // Carries out a line.
    fn read_line(&mut self, number: usize, line: &str) -> Result<(), AllocError>
        ensures told { OnOk result (GrownByA (LineTold self.old.view number line.now (reading_of self.old) (reading_of self.new)) self.old.text self.new.text) }
        ensures view { self.new.view ≡ self.old.view }
    {
        match line.parse() {
            Ok(Command::Blank) => {}
            Ok(Command::Plan(n)) => {
                self.end_plan()?;
                self.plan = Some(Plan::new(*self.text.allocator(), n));
            }
            Ok(Command::Link(link)) => self.add_link(number, line, link)?,
            Ok(Command::Shape(shape, n)) => self.tell_shape(line, shape, n)?,
            Err(UnknownCommand) => self.complain(number, line, " is no command: ")?,
        }
        Ok(())
    }
}

// What is told of all plans of the text, in order.
pub fn report(heap: Global, text: &str, view: View) -> Result<String, AllocError>
    ensures { IfOk result (λ s. Told view 1 nothing_read text.now (string_bytes s)) }
{
    let mut reader = Reader::new(heap, view);
    for (index, line) in text.lines().enumerate() {
        reader.read_line(index + 1, line)?;
    }
    reader.end_plan()?;
    Ok(reader.text)
}
