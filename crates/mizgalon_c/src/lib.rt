// The two functions that C calls (include/mizgalon.h): each calls the function of its name in mizgalon, and promises the same.
#![tactic(auto)]

ghost use Rattle.std.specs.Prelude.{◌≡◌, length};
ghost use Rattle.definition.specs.ActionList.{numbers, resolve};
ghost use Rattle.definition.specs.Checker.{check};

#[unsafe(no_mangle)]
pub extern "C" fn mizgalon_resolve(
    file: &[u8],
    actions: &mut [u64],
    temporaries: &mut [u64],
    res: &mut [u64; 12],
)
    ensures res_after { res.new ≡ numbers (resolve file.now (length actions.old) (length temporaries.old)).result }
    ensures actions_after { actions.new ≡ (resolve file.now (length actions.old) (length temporaries.old)).actions }
    ensures temporaries_after { temporaries.new ≡ (resolve file.now (length actions.old) (length temporaries.old)).temporaries }
{
    mizgalon::mizgalon_resolve(file, actions, temporaries, res);
}

#[unsafe(no_mangle)]
pub extern "C" fn mizgalon_check(
    list: &[u64],
    actions: u64,
    temporaries: u64,
    subtables: u64,
    pointer_size: u64,
) -> bool
    ensures { result ≡ check list.now actions temporaries subtables pointer_size }
{
    mizgalon::mizgalon_check(list, actions, temporaries, subtables, pointer_size)
}
