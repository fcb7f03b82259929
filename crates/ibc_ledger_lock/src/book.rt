//! The book of a chain: its keeper knows the ledger as it is, and each bookmark knows it as it was once. It exists in proofs
//! alone, but for one word.
ghost use Rattle.std.specs.Prelude.{◌≡◌};
ghost use Rattle.logbook.specs.Pages.{may_make, may_write};
ghost use Rattle.ibc_ledger_lock.specs.Books.{IsKnownBeginning, IsNoted};
ghost use Rattle.ibc_ledger_lock.specs.ReceiptsAndReadings.{known_with};

use ibc_ledger::Ledger;
use ibc_machine::Reply;
use logbook::{Gain, Offer, Pen, Plain, Play, Rule, Seen, Start, Word};
use std::marker::{Brand, Model, PhantomData};

/// What is known of a ledger. No value of it is made.
pub struct LedgerKnowledge;

impl Model for LedgerKnowledge {
    ghost use Rattle.ibc_ledger_lock.specs.KnownLedgers.{KnownLedger, nothing_known};

    ghost Value = { KnownLedger };

    ghost view = { λ _. nothing_known };
}

/// A page of a book: a ledger as it is known, and the key with which the next page is written. No value of it is made.
pub struct Page {
    pub known: LedgerKnowledge,
    pub next: u64,
}

/// Each page is written with the key that the page before it names, which one pen has.
pub struct OneKeeper;

impl Rule<Page, ()> for OneKeeper {
    ghost use Rattle.std.specs.Prelude.{[]};
    ghost use base.Fml.{ftrue};
    ghost use Rattle.ibc_ledger_lock.specs.Books.{IsBook};

    ghost holds = { λ words pages. IsBook words pages };

    ghost first = { [] };

    ghost hinted = { λ n pages. Unit {0} };

    ghost shows = { λ pages. [] };

    ghost keeps = { λ names pages. ftrue };

    ghost moves = { λ ask before after answer. Unit {0} };
}

/// Nothing is traded beside the book.
pub struct NoTrade;

impl Gain<Page, ()> for NoTrade {
    ghost use base.Fml.{ftrue};

    ghost after = { λ names about answer. ftrue };
}

impl Plain<(), Page, ()> for NoTrade {
    ghost use Rattle.std.specs.Prelude.{None};
    ghost use Rattle.ibc_ledger_lock.specs.Books.{first_page};

    ghost ask = { λ about. first_page 0 };

    ghost state = { λ about. None };
}

/// The book is begun.
struct Begin;

impl Play<Page, ()> for Begin {
    ghost use Rattle.ibc_ledger_lock.specs.Books.{Begins};

    ghost then = { Begins };
}

/// A pen is made.
struct GivePen;

impl Play<Page, ()> for GivePen {
    ghost use Rattle.ibc_ledger_lock.specs.Books.{GivesPen};

    ghost then = { GivesPen };
}

/// No page was written with the pen.
struct FindUnused;

impl Play<Page, ()> for FindUnused {
    ghost use Rattle.ibc_ledger_lock.specs.Books.{FindsUnused};

    ghost then = { FindsUnused };
}

/// All that a ledger was asked, which a proof picks.
pub trait PickedCalls {
    ghost use Rattle.std.specs.Prelude.{List};
    ghost use Rattle.ibc_ledger_lock.specs.Calls.{Call};

    ghost calls: { List Call };
}

impl PickedCalls for Brand {
    ghost use Rattle.std.specs.Prelude.{[]};

    ghost calls = { [] };
}

/// A page that a proof picks.
pub trait PickedPage {
    ghost use Rattle.ibc_ledger_lock.specs.declared.book.Page.{Page};

    ghost page: { Page };
}

impl PickedPage for Brand {
    ghost use Rattle.ibc_ledger_lock.specs.Books.{first_page};

    ghost page = { first_page 0 };
}

/// The page is written.
struct Write<X: PickedPage>(PhantomData<X>);

impl<X: PickedPage> Play<Page, ()> for Write<X> {
    ghost use Rattle.ibc_ledger_lock.specs.Books.{Writes};

    ghost then = { Writes X.page };
}

/// A place in a book. It may be copied. Contracts see the book's name, and the ledger as it was known at the place.
#[derive(Drop)]
pub struct Bookmark {
    seen: Seen<Page, (), OneKeeper>,
}

impl Model for Bookmark {
    ghost use Rattle.ibc_ledger_lock.specs.Books.{BookPlace, known_in};

    ghost Value = { BookPlace };

    ghost view = { λ mark. record { book = mark.seen.book; known = known_in mark.seen.log } };
}

impl Bookmark {
    /// A copy.
    pub(crate) fn again(&self) -> Bookmark
        ensures { result ≡ self.now }
    {
        Bookmark {
            seen: self.seen.again(),
        }
    }
}

/// Who alone writes a book, and so knows the ledger as it is. Contracts see the book's name, and the ledger as it is known.
#[derive(Drop)]
pub struct Keeper {
    head: Word<Page, (), OneKeeper>,
    seen: Seen<Page, (), OneKeeper>,
    pen: Pen,
}

impl Model for Keeper {
    ghost use Rattle.std.specs.Prelude.{◌≡◌, []};
    ghost use Rattle.logbook.specs.Pages.{may_write};
    ghost use Rattle.ibc_ledger_lock.specs.Books.{BookPlace, head_of, key_in, known_in};

    ghost Value = { BookPlace };

    ghost view = { λ k. record { book = k.seen.book; known = known_in k.seen.log } };

    ghost invariant = { λ k. (k.head ≡ head_of k.seen.book) × (k.seen.names ≡ []) × (k.seen.log ≡ [] → ⊥)
        × (k.pen.book ≡ k.seen.book) × (k.pen.nib.right ≡ may_write) × (k.pen.nib.key ≡ key_in k.seen.log) };
}

/// A book in which nothing is known yet, for one chain. Contracts see its name.
#[derive(Drop)]
pub struct UnusedBook {
    pub(crate) keeper: Keeper,
}

impl Model for UnusedBook {
    ghost use Rattle.std.specs.Prelude.{◌≡◌};
    ghost use Rattle.logbook.specs.Pages.{Book};
    ghost use Rattle.ibc_ledger_lock.specs.KnownLedgers.{nothing_known};

    ghost Value = { Book };

    ghost view = { λ unused. unused.keeper.book };

    ghost invariant = { λ unused. unused.keeper.known ≡ nothing_known };
}

impl UnusedBook {
    /// A new book. It would be none if another keeper had begun it, and a new book has no other; no clause says so.
    pub fn new() -> Option<UnusedBook> {
        let (seen, mut first, _) = Seen::open(Start::alone(), 0, 0);
        let mut seen = seen;
        let head = Word::tracked(0, &mut first);
        let mut pen = seen.no_pen();
        let mut offer: Offer<Page, (), OneKeeper, NoTrade> = seen.plain::<NoTrade, (), NoTrade>(
            &(),
        );
        let found = head.compare_exchange::<Begin, NoTrade>(0, 1, &mut seen, &mut offer, &mut pen);
        if found != 0 {
            return None;
        }
        make_word(&mut pen);
        Some(UnusedBook {
            keeper: Keeper { head, seen, pen },
        })
    }
}

// The pen may write the word that it was the right to make.
fn make_word(pen: &mut Pen)
    requires { pen.old.nib.right ≡ may_make }
    ensures book { pen.new.book ≡ pen.old.book }
    ensures right { pen.new.nib.right ≡ may_write }
    ensures key { pen.new.nib.key ≡ pen.old.nib.key }
{
    let _word: Word<Page, (), OneKeeper> = Word::tracked(0, pen);
}

impl Keeper {
    /// A bookmark at the last page.
    pub(crate) fn mark(&self) -> Bookmark
        ensures { result ≡ self.now }
    {
        Bookmark {
            seen: self.seen.again(),
        }
    }

    /// Writes down the ledger as it is now, which has gone on, with all that it was asked, and puts a bookmark there.
    pub(crate) fn note<C: PickedCalls>(&mut self, ledger: &Ledger) -> Bookmark
        requires later { IsKnownBeginning self.old.known (known_with ledger.now.ledger C.calls) }
        ensures keeper { IsNoted self.old ledger.now.ledger C.calls self.new }
        ensures mark { result ≡ self.new }
    {
        let next = self.next_pen();
        self.write::<Brand>(next, ledger);
        self.mark()
    }

    /// What `note` does, once the ledger was asked for something and has replied.
    pub(crate) fn note_call<C: PickedCalls, T>(
        &mut self,
        ledger: &Ledger,
        asked: &T,
        reply: &Reply,
    ) -> Bookmark
        requires later { IsKnownBeginning self.old.known (known_with ledger.now.ledger C.calls) }
        ensures keeper { IsNoted self.old ledger.now.ledger C.calls self.new }
        ensures mark { result ≡ self.new }
    {
        let _ = asked;
        let _ = reply;
        self.note::<C>(ledger)
    }

    /// What was known at a bookmark of this book is a beginning of what the keeper knows.
    pub(crate) fn check(&mut self, mark: &Bookmark)
        requires book { mark.now.book ≡ self.old.book }
        ensures same { self.new ≡ self.old }
        ensures begins { IsKnownBeginning mark.now.known self.old.known }
    {
        let mut both = self.seen.again();
        both.learn(&mark.seen);
        let mut offer: Offer<Page, (), OneKeeper, NoTrade> = both.plain::<NoTrade, (), NoTrade>(
            &(),
        );
        self.head
            .compare_exchange::<FindUnused, NoTrade>(1, 1, &mut both, &mut offer, &mut self.pen);
    }

    // A pen with which no page was written yet.
    fn next_pen(&self) -> Pen
        ensures { (result.book ≡ self.now.book) × (result.nib.right ≡ may_write) }
    {
        let mut seen = self.seen.again();
        let mut pen = seen.no_pen();
        let mut offer: Offer<Page, (), OneKeeper, NoTrade> = seen.plain::<NoTrade, (), NoTrade>(
            &(),
        );
        self.head
            .compare_exchange::<GivePen, NoTrade>(1, 1, &mut seen, &mut offer, &mut pen);
        make_word(&mut pen);
        pen
    }

    // Writes a page on the ledger with the keeper's pen. It names the key of the next pen, which the keeper has from then on.
    fn write<X: PickedPage>(&mut self, next: Pen, ledger: &Ledger)
        requires picked { X.page.next ≡ next.nib.key }
        requires next { (next.book ≡ self.old.book) × (next.nib.right ≡ may_write) }
        requires later { IsKnownBeginning self.old.known X.page.known }
        ensures { (self.new.book ≡ self.old.book) × (self.new.known ≡ X.page.known) }
    {
        let _ = ledger;
        let mut offer: Offer<Page, (), OneKeeper, NoTrade> = self
            .seen
            .plain::<NoTrade, (), NoTrade>(&());
        self.head
            .compare_exchange::<Write<X>, NoTrade>(1, 1, &mut self.seen, &mut offer, &mut self.pen);
        self.pen = next;
    }
}
