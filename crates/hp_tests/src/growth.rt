//! Small fragments, split as the worked examples of inner and outer edits are.
use hp_arena::{NodeView, Tree};
use hp_control::{Child, Edit, Edits, Place, Ref};
use hp_elements::{Chain, Known, Name, Namespace, Tag, Text};
use hp_growth::Growing;
use std::alloc::Global;
use std::process::Abort;

/// An edit of a fragment.
#[derive(Clone, Copy)]
enum Step {
    New,
    Put(Ref, Place),
    Text(Place),
    Detach(Ref),
    MoveChildren(Ref, Ref),
}

const OWN_0: Ref = Ref::Own(0);

const OWN_1: Ref = Ref::Own(1);

const OWN_2: Ref = Ref::Own(2);

const OWN_3: Ref = Ref::Own(3);

const OLDER: Place = Place::Into(Ref::Older(0));

const IN_0: Place = Place::Into(OWN_0);

const IN_1: Place = Place::Into(OWN_1);

const IN_2: Place = Place::Into(OWN_2);

const BEFORE_1: Place = Place::Foster {
    table: OWN_1,
    above: OWN_0,
};

/// The edits, then for each own element the number of its parent and what stands first in it, and the outer edits.
type Case = (&'static [Step], &'static str, &'static str);

const CASES: &[Case] = &[
    // `<ul><li>x<li>x</ul>`
    (
        &[
            Step::New,
            Step::Put(OWN_0, OLDER),
            Step::New,
            Step::Put(OWN_1, IN_0),
            Step::Text(IN_1),
            Step::New,
            Step::Put(OWN_2, IN_0),
            Step::Text(IN_2),
        ],
        "-e 0t 0t ",
        "p",
    ),
    // `<div><b><p>x</b>`: the paragraph leaves the b, and a new b takes its children
    (
        &[
            Step::New,
            Step::Put(OWN_0, OLDER),
            Step::New,
            Step::Put(OWN_1, IN_0),
            Step::New,
            Step::Put(OWN_2, IN_1),
            Step::Text(IN_2),
            Step::Put(OWN_2, IN_0),
            Step::New,
            Step::MoveChildren(OWN_2, OWN_3),
            Step::Put(OWN_3, IN_2),
        ],
        "-e 0- 0e 2t ",
        "p",
    ),
    // `<div><table>x`
    (
        &[
            Step::New,
            Step::Put(OWN_0, OLDER),
            Step::New,
            Step::Put(OWN_1, IN_0),
            Step::Text(BEFORE_1),
        ],
        "-t 0- ",
        "p",
    ),
    // an element put into an older one, taken out again and put into a new one
    (
        &[
            Step::New,
            Step::Put(OWN_0, OLDER),
            Step::Detach(OWN_0),
            Step::New,
            Step::Put(OWN_0, IN_1),
            Step::Text(IN_1),
            Step::Text(IN_0),
        ],
        "-t -- ",
        "pdpp",
    ),
];

/// `<ul><li>x<li>x</ul>` in the element 4, told by ids: own elements have those from 5 on. An own element's number is its id.
const TOLD: Case = (
    &[
        Step::New,
        Step::Put(Ref::Fixed(5), Place::Into(Ref::Fixed(4))),
        Step::New,
        Step::Put(Ref::Fixed(6), Place::Into(Ref::Fixed(5))),
        Step::Text(Place::Into(Ref::Fixed(6))),
        Step::New,
        Step::Put(Ref::Own(7), Place::Into(Ref::Fixed(5))),
        Step::Text(Place::Into(Ref::Own(7))),
    ],
    "-e 0t 0t ",
    "p",
);

fn edit(step: Step) -> Edit<'static> {
    match step {
        Step::New => Edit::NewElement {
            tag: Tag {
                namespace: Namespace::Html,
                name: Name::of_known(Known::B),
                attributes: Chain::new(),
            },
        },
        Step::Put(node, place) => Edit::Put {
            child: Child::Element(node),
            place,
        },
        Step::Text(place) => Edit::Put {
            child: Child::Text(Text::new()),
            place,
        },
        Step::Detach(node) => Edit::Detach { node },
        Step::MoveChildren(from, to) => Edit::MoveChildren { from, to },
    }
}

fn edits(rt: &impl Abort, alloc: Global, steps: &[Step]) -> Edits<'static> {
    let mut out: Edits<'static> = Edits::new();
    for step in steps {
        out.push(alloc, edit(*step)).expect(rt, "there is memory");
    }
    out
}

fn start(rt: &impl Abort, alloc: Global) -> Growing<'static> {
    Growing::start(alloc).expect(rt, "there is memory")
}

fn parent_letter(parent: Option<u32>) -> char {
    match parent {
        None => '-',
        Some(1) => '0',
        Some(2) => '1',
        Some(3) => '2',
        Some(_) => '?',
    }
}

fn first_letter(tree: &Tree<'_>, id: u32) -> char
    requires { id < length tree.now.branches }
{
    match tree.first_inside(id) {
        Some(at) => match tree.view(at) {
            NodeView::Element { .. } => 'e',
            NodeView::Text { .. } => 't',
            _ => '?',
        },
        None => '-',
    }
}

ghost use Rattle.std.specs.Prelude.{◌<◌, length};

/// What the grove was before it was put behind the document alone.
fn shape(rt: &impl Abort, alloc: Global, tree: &Tree<'_>) -> String {
    let mut out = String::new(alloc);
    for id in 1..tree.len() {
        out.push(parent_letter(tree.parent_of(id)))
            .expect(rt, "there is memory");
        out.push(first_letter(tree, id))
            .expect(rt, "there is memory");
        out.push(' ').expect(rt, "there is memory");
    }
    out
}

fn kinds(rt: &impl Abort, alloc: Global, edits: &Edits<'_>) -> String {
    let mut out = String::new(alloc);
    for edit in edits.as_slice() {
        let letter = match edit {
            Edit::NewElement { .. } => 'n',
            Edit::Put { .. } => 'p',
            Edit::Detach { .. } => 'd',
            Edit::MoveChildren { .. } => 'm',
            Edit::AddMissing { .. } => 'a',
        };
        out.push(letter).expect(rt, "there is memory");
    }
    out
}

fn assert_split(rt: &impl Abort, alloc: Global, growing: Growing<'static>, case: &Case) {
    let (grove, outer) = growing.into_parts();
    let mut tree: Tree<'static> = Tree::start(alloc).expect(rt, "there is memory");
    assert!(rt; tree.graft(alloc, grove).is_ok());
    assert_eq!(rt; shape(rt, alloc, &tree).as_str(), case.1);
    assert_eq!(rt; kinds(rt, alloc, &outer).as_str(), case.2);
}

#[test]
fn edits_split_as_they_come(rt: HostRuntime) {
    for case in CASES {
        let mut growing = start(&rt, rt.alloc());
        for step in case.0 {
            growing
                .put(rt.alloc(), &mut edit(*step))
                .expect(&rt, "there is memory");
        }
        assert_split(&rt, rt.alloc(), growing, case);
    }
}

#[test]
fn edits_split_all_together(rt: HostRuntime) {
    for case in CASES {
        let mut growing = start(&rt, rt.alloc());
        let mut edits = edits(&rt, rt.alloc(), case.0);
        growing
            .put_all(rt.alloc(), &mut edits)
            .expect(&rt, "there is memory");
        assert!(&rt; edits.is_empty());
        assert_split(&rt, rt.alloc(), growing, case);
    }
}

#[test]
fn edits_told_by_ids_split_alike(rt: HostRuntime) {
    let mut growing = start(&rt, rt.alloc());
    let mut edits = edits(&rt, rt.alloc(), TOLD.0);
    growing
        .put_all_told(rt.alloc(), 5, &mut edits)
        .expect(&rt, "there is memory");
    assert!(&rt; edits.is_empty());
    assert_split(&rt, rt.alloc(), growing, &TOLD);
}

#[test]
fn elements_that_no_fragment_names_are_refused(rt: HostRuntime) {
    let mut growing = start(&rt, rt.alloc());
    assert!(&rt;
        growing
            .put(rt.alloc(), &mut edit(Step::Put(OWN_0, OLDER)))
            .is_err()
    );
    for (id, taken) in [(1, true), (2, false)] {
        let step = Step::Text(Place::Into(Ref::Fixed(id)));
        assert!(&rt; growing.put(rt.alloc(), &mut edit(step)).is_ok());
        let mut guessed = edits(&rt, rt.alloc(), &[step]);
        assert_eq!(&rt; growing.put_all(rt.alloc(), &mut guessed).is_ok(), taken);
    }
}
