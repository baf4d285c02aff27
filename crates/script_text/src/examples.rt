//! Worked scripts and texts.

ghost use Rattle.std.specs.Prelude.{◌≡◌, codes, Some};
ghost use Rattle.hops_base.specs.declared.path_text.PathFault.TheVariants.{Relative, EmptyName};
ghost use Rattle.script_text.specs.Form.{script_text};
ghost use Rattle.script_text.specs.Faults.{fault, bad_path, script_fault};
ghost use Rattle.script_text.specs.Grammar.{IsScriptText};
ghost use Rattle.script_text.specs.Generator.{generated};
ghost use Rattle.script_text.specs.Examples.{first_script, first_bytes, small_generated, small_text, with_members, with_clients, with_second_call};

/// What is written for a small script.
pub fn generated_script_is_written()
    ensures { script_text small_generated ≡ small_text }
{}

/// What is generated for a seed, for one client and one call.
pub fn first_draws()
    ensures { generated 7 1 1 ≡ small_generated }
{}

/// The first script is read.
pub fn first_script_is_read()
    ensures { IsScriptText first_bytes first_script }
{}

/// Each rule is told where a text breaks it and no other.
pub fn each_rule_is_told()
    ensures cut { script_fault (codes "{\"version\":1,\"namenodes\":1,\"clients\":[{\"user\":\"an")
        ≡ Some (fault 1 49 0) }
    ensures no_object { script_fault (codes "[]") ≡ Some (fault 2 0 0) }
    ensures unknown_key { script_fault (with_members "\"version\":1,\"namenodes\":1,\"speed\":1")
        ≡ Some (fault 3 0 0) }
    ensures version { script_fault (with_members "\"version\":9,\"namenodes\":1")
        ≡ Some (fault 4 0 0) }
    ensures namenodes { script_fault (with_members "\"version\":1,\"namenodes\":17")
        ≡ Some (fault 5 0 0) }
    ensures tries { script_fault (with_members "\"version\":1,\"namenodes\":1,\"tries\":0")
        ≡ Some (fault 6 0 0) }
    ensures grace { script_fault (with_members "\"version\":1,\"namenodes\":1,\"grace\":1.0")
        ≡ Some (fault 7 0 0) }
    ensures persist { script_fault (with_members "\"version\":1,\"namenodes\":1,\"persist\":null")
        ≡ Some (fault 8 0 0) }
    ensures no_stops { script_fault (with_members "\"version\":1,\"namenodes\":1,\"stops\":null")
        ≡ Some (fault 9 0 0) }
    ensures second_stop { script_fault (with_members "\"version\":1,\"namenodes\":1,\"stops\":[[0,5],[0,6]]")
        ≡ Some (fault 9 1 0) }
    ensures no_clients { script_fault (codes "{\"version\":1,\"namenodes\":1}")
        ≡ Some (fault 10 0 0) }
    ensures client_keys { script_fault (with_clients "{\"user\":\"ann\",\"calls\":[],\"uid\":1}")
        ≡ Some (fault 11 0 0) }
    ensures user { script_fault (with_clients "{\"user\":\"Ann\",\"calls\":[]}")
        ≡ Some (fault 12 0 0) }
    ensures no_calls { script_fault (with_clients "{\"user\":\"ann\",\"calls\":1}")
        ≡ Some (fault 13 0 0) }
    ensures call_items { script_fault (with_second_call "[\"stat\",\"/a\",\"/b\"]")
        ≡ Some (fault 14 0 2) }
    ensures call_name { script_fault (with_second_call "[\"move\",\"/a\"]") ≡ Some (fault 14 0 2) }
    ensures call_path { script_fault (with_second_call "[\"stat\",\"a\"]")
        ≡ Some (bad_path 0 2 Relative) }
    ensures call_number { script_fault (with_second_call "[\"grow\",\"/a\",0]")
        ≡ Some (fault 16 0 2) }
{}

/// Of two faults the first is told: by the rules, and then by the places of clients and calls. Of a key that
/// stands twice the last value counts, and later clients and paths are looked at too.
pub fn first_rule_is_told()
    ensures key_before_version { script_fault (with_members "\"version\":9,\"namenodes\":1,\"speed\":1")
        ≡ Some (fault 3 0 0) }
    ensures last_version_counts { script_fault (with_members "\"version\":9,\"version\":1,\"namenodes\":17")
        ≡ Some (fault 5 0 0) }
    ensures tries_before_grace { script_fault (with_members "\"version\":1,\"namenodes\":1,\"grace\":0,\"tries\":-1")
        ≡ Some (fault 6 0 0) }
    ensures stops_before_clients { script_fault (codes "{\"version\":1,\"namenodes\":2,\"stops\":[[1,1],[2,1],1],\"clients\":1}")
        ≡ Some (fault 9 1 0) }
    ensures stops_before_calls { script_fault (codes "{\"version\":1,\"namenodes\":1,\"clients\":[{\"user\":\"ann\",\"calls\":1}],\"stops\":1}")
        ≡ Some (fault 9 0 0) }
    ensures user_before_calls { script_fault (with_clients "{\"user\":\"Ann\",\"calls\":1}")
        ≡ Some (fault 12 0 0) }
    ensures calls_before_next_client { script_fault (with_clients "{\"user\":\"ann\",\"calls\":[[\"chmod\",\"/a\",512]]},1")
        ≡ Some (fault 16 0 1) }
    ensures second_client { script_fault (with_clients "{\"user\":\"ann\",\"calls\":[]},{\"user\":\"ann\"}")
        ≡ Some (fault 11 1 0) }
    ensures items_before_path { script_fault (with_second_call "[\"grow\",\"a\",-0]")
        ≡ Some (fault 14 0 2) }
    ensures path_before_number { script_fault (with_second_call "[\"chmod\",\"a\",512]")
        ≡ Some (bad_path 0 2 Relative) }
    ensures source_before_target { script_fault (with_second_call "[\"rename\",\"/a/\",\"b\"]")
        ≡ Some (bad_path 0 2 (EmptyName 1)) }
    ensures target { script_fault (with_second_call "[\"rename\",\"/a\",\"/b//c\"]")
        ≡ Some (bad_path 0 2 (EmptyName 1)) }
{}
