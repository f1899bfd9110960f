// COLLECT, the call that collects without need.
ghost use Rattle.std.specs.Prelude.{◌≡◌};
ghost use Rattle.meaning.specs.Limits.{first_heap_cell};
ghost use Rattle.meaning.specs.Sound.{Sound};
ghost use Rattle.meaning.specs.Reach.{live};
ghost use Rattle.meaning.specs.Collected.{collected, collected_top};
ghost use Rattle.meaning.specs.Verdicts.{done};

// Its value is live: the heap cells that are left.
#[tactic(auto, using(build::proofs::Rooms::live_small, meaning::proofs::sound::Cells::limit_fits))]
pub fn collect_store(ws: &mut [u32], top: &mut usize) -> u32
    requires { Sound first_heap_cell ws.old top.old }
    ensures { done ws.new top.new result
        ≡ done (collected first_heap_cell ws.old top.old) (collected_top first_heap_cell ws.old top.old)
        (live first_heap_cell ws.old top.old) }
{
    *top = collect::collect_sound(ws, *top);
    (*top - meaning::FIRST_HEAP_CELL) as u32
}
