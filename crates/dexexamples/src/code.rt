//! Opcodes, pieces of code, targets, and positions of debug programs.

ghost use Rattle.std.specs.Prelude.{◌≡◌, [], ◌∷◌, false, None, pos, negsuc};
ghost use Rattle.dexspec.specs.Debug.{Special};
ghost use Rattle.dexspec.specs.Pieces.{IsCode, has_right_targets, piece_size};
ghost use Rattle.dexdebug.specs.Positions.{positions};
ghost use Rattle.dexinsn.specs.Split.{BreaksAt};
ghost use Rattle.dexexamples.specs.OpcodeTable.{all_formats, all_indices, all_mnemonics, expected_formats, expected_indices, expected_mnemonics};
ghost use Rattle.dexexamples.specs.Units.{cut, packed, packed_bad_target, odd_payload, invoke, six_registers, array_data, array_of_threes, sparse, sparse_equal, sparse_as_packed, sparse_cuts, debug_of, five_on};

/// The table of opcodes is that of the public page, opcode by opcode.
pub fn opcodes()
    ensures formats { all_formats ≡ expected_formats }
    ensures indices { all_indices ≡ expected_indices }
    ensures mnemonics { all_mnemonics ≡ expected_mnemonics }
{}

/// Code with valid cuts and targets.
pub fn code_is_cut()
    ensures packed_switch { IsCode packed (cut 0 3 ∷ cut 3 1 ∷ cut 4 6 ∷ []) }
    ensures sparse_switch { IsCode sparse sparse_cuts }
    ensures array { IsCode array_data (cut 0 3 ∷ cut 3 1 ∷ cut 4 5 ∷ []) }
    ensures invoke { IsCode invoke (cut 0 3 ∷ []) }
{}

/// Units where no piece begins: a payload at an odd unit, six registers, a byte that is not zero, an unused opcode, a
/// cut instruction, a width of three, a key that occurs twice.
pub fn no_piece()
    ensures odd_payload { BreaksAt odd_payload 1 }
    ensures six_registers { piece_size 0 six_registers ≡ None }
    ensures zero_byte { piece_size 0 (0x010e ∷ []) ≡ None }
    ensures unused { piece_size 0 (0x00ff ∷ []) ≡ None }
    ensures cut_off { piece_size 0 (0x001a ∷ []) ≡ None }
    ensures width { piece_size 4 array_of_threes ≡ None }
    ensures keys { piece_size 4 sparse_equal ≡ None }
{}

/// Targets that are not valid: into an instruction, past the end, a payload of another kind.
pub fn wrong_targets()
    ensures inside { has_right_targets packed_bad_target (cut 0 3 ∷ cut 3 1 ∷ cut 4 6 ∷ [])
        (cut 0 3) ≡ false }
    ensures outside { has_right_targets (0x2028 ∷ []) (cut 0 1 ∷ []) (cut 0 1) ≡ false }
    ensures other_kind { has_right_targets sparse_as_packed sparse_cuts (cut 0 3) ≡ false }
{}

/// Addresses and lines that debug programs record.
pub fn positions_are()
    ensures two { positions (debug_of 10 (Special 0x0e ∷ Special 0x1e ∷ []))
        ≡ (0, pos 10) ∷ (1, pos 11) ∷ [] }
    ensures advanced { positions five_on ≡ (5, pos 7) ∷ [] }
    ensures greatest { positions (debug_of 0 (Special 0xff ∷ [])) ≡ (16, pos 1) ∷ [] }
    ensures negative { positions (debug_of 0 (Special 0x0a ∷ [])) ≡ (0, negsuc 3) ∷ [] }
{}
