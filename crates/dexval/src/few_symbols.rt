//! The symbols that occur in values, each once, where they are few.

ghost use Rattle.std.specs.Prelude.{◌≡◌, ◌||◌, ◌&&◌, ◌==◌, ◌∷◌, ◌++◌, [], ℕ, true};
ghost use Rattle.std.specs.List.{list_any};
ghost use Rattle.dexpool.specs.declared.symbols.SymbolKind.{SymbolKind};
ghost use Rattle.dexpool.specs.Uses.{occurs, same_kind};
ghost use Rattle.dexval.specs.FewSymbols.{uses_of};
ghost use Rattle.dexval.specs.declared.few_symbols.Occurring.{Occurring};

use dexpool::{SymbolKind, Symbols, Visitor, visit_all};
use std::alloc::Global;

// The most that are kept.
const MOST: usize = 16;

/// A symbol that occurs.
#[derive(Clone, Copy)]
struct Occurring {
    kind: SymbolKind,
    number: u32,
}

impl Occurring {
    // Returns whether it is the symbol of a kind and a number.
    #[inline(always)]
    fn is(&self, kind: SymbolKind, number: u32) -> bool
        ensures { result ≡ (same_kind self.now.kind kind && self.now.number == number) }
    {
        self.number == number && self.kind == kind
    }
}

impl Symbols for Occurring {
    ghost uses = { λ symbol. record { kind = symbol.kind; number = symbol.number } ∷ [] };

    fn visit<V: Visitor>(&self, visitor: &mut V) {
        visitor.symbol(self.kind, self.number);
    }
}

/// Symbols that were visited, each once, unless they are many.
#[derive(Drop)]
pub(crate) struct FewSymbols {
    symbols: Vec<Occurring>,
    // Whether each symbol that was visited is among them.
    are_all: bool,
}

// Keeps one symbol more. Returns `false` if there is no room for it.
fn keep(symbols: &mut Vec<Occurring>, symbol: Occurring) -> bool
    ensures { result ≡ true → symbols.new.items ≡ symbols.old.items ++ (symbol ∷ []) }
{
    symbols.len() < MOST && symbols.push(symbol).is_ok()
}

impl FewSymbols {
    /// No symbols.
    pub(crate) fn none(alloc: Global) -> FewSymbols
        ensures { result.symbols.items ≡ [] }
    {
        FewSymbols {
            symbols: Vec::new(alloc),
            are_all: true,
        }
    }

    /// Whether each symbol that was visited is kept.
    pub(crate) fn are_all(&self) -> bool
        ensures { result ≡ self.now.are_all }
    {
        self.are_all
    }

    // Returns whether a symbol is kept.
    fn has(&self, kind: SymbolKind, number: u32) -> bool
        ensures { result ≡ list_any (λ (s : Occurring). same_kind s.kind kind && s.number == number)
            self.now.symbols.items }
    {
        self.symbols.iter().any(|symbol| symbol.is(kind, number))
    }
}

/// Keeps each symbol once, as long as they are few.
impl Visitor for FewSymbols {
    ghost step = { λ a u b. b.are_all ≡ true → (a.are_all ≡ true) × ((kind : SymbolKind) (i : ℕ)
        → occurs (uses_of b.symbols.items) kind i
        ≡ (occurs (uses_of a.symbols.items) kind i || occurs (u ∷ []) kind i)) };

    // A symbol that is kept already is the usual case.
    #[inline(always)]
    fn symbol(&mut self, kind: SymbolKind, number: u32) {
        if self.are_all && !self.has(kind, number) {
            self.are_all = keep(&mut self.symbols, Occurring { kind, number });
        }
    }
}

impl Symbols for FewSymbols {
    ghost uses = { λ few. uses_of few.symbols.items };

    fn visit<V: Visitor>(&self, visitor: &mut V) {
        visit_all(&self.symbols, visitor);
    }
}
